// Requests whose replies are printed as they come, so that a library under the program can refuse each allocation: `tests/faults/refused_memory.py`
// runs this test by its name, and compares what it prints. No line takes memory.

use crate::serving_tests::{FIRST, SHEET};
use crate::uses::opened;
use mr_http::WebFault;
use mr_service::Service;
use mr_store::Keeper;
use mr_web::serve_one;
use std::alloc::Global;
use std::io::{self, Write};
use std::process::Abort;

/// How serving a request ended.
fn line_of(served: Result<u16, WebFault>) -> &'static [u8] {
    match served {
        Ok(200) => b"\nserved 200\n",
        Ok(503) => b"\nserved 503\n",
        Ok(_) => b"\nserved another status\n",
        Err(WebFault::Memory) => b"\nfault Memory\n",
        Err(_) => b"\nanother fault\n",
    }
}

fn print<W: Write>(rt: &impl Abort, out: &mut W, line: &[u8]) {
    out.write_all(line).expect(rt, "an output that takes all");
}

fn serve<K: Keeper, W: Write>(
    rt: &impl Abort,
    alloc: Global,
    service: &mut Service<K>,
    request: &str,
    out: &mut W,
) {
    let served = serve_one(alloc, &mut request.as_bytes(), out, service);
    print(rt, out, line_of(served));
}

/// A submission, what became of it, and the same submission again; a line says how each ended.
fn serve_all<K: Keeper, W: Write>(
    rt: &impl Abort,
    alloc: Global,
    service: &mut Service<K>,
    out: &mut W,
) {
    serve(rt, alloc, service, FIRST[0].0, out);
    serve(rt, alloc, service, SHEET[0].0, out);
    serve(rt, alloc, service, FIRST[0].0, out);
}

#[test]
fn three_requests(rt: HostRuntime) {
    let mut out = io::writer(&rt);
    match opened(rt.alloc(), 1) {
        Ok(mut service) => serve_all(&rt, rt.alloc(), &mut service, &mut out),
        Err(_) => print(&rt, &mut out, b"not opened\n"),
    }
}
