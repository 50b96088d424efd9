ghost use Rattle.std.specs.Prelude.{◌≡◌, ◌≤◌, [], Ok, Option, IfErr, OnOk, length, drop};
ghost use Rattle.std.specs.Io.KnownBytes.{Keeps};
ghost use Rattle.mr_model.specs.Texts.{Text};
ghost use Rattle.mr_model.specs.Http as model;
ghost use Rattle.mr_service.specs.Asked.{command_seen as command_view};
ghost use Rattle.mr_http.specs.Inputs.{OfInput};
ghost use Rattle.mr_http.specs.Reading.{OnceRead};
ghost use Rattle.mr_http.specs.declared.faults.ReadFault.TheVariants.{Read as read_fault, Memory as memory_fault};
ghost use Rattle.mr_http.specs.declared.faults.WebFault.TheVariants.{Read as fault_read};
ghost use Rattle.mr_web.specs.RequestAsks as spec;
ghost use Rattle.mr_web.specs.RequestRead.{ReadsOneRequest, UnlessFault};
ghost use Rattle.mr_web.specs.RequestServed.{IsRequest};
ghost use Rattle.mr_web.specs.Views.{AnswersTo, EndsServed, GivesView, IsServeFault, Settles, StopsWith};
ghost use Rattle.mr_web.specs.RouteViews.{route_view};
ghost use Rattle.mr_web.specs.RepliesWritten.{MakesReply, Writes};

use crate::cancellations::cancellation;
use crate::checks::asked_by;
use crate::rejections::{Rejection, Stop};
use crate::replies::{Answer, answer_to_rejection, answer_to_reply};
use crate::routes::Route;
use crate::submissions::submission;
use mr_http::{ReadFault, WebFault, fill_to, lines_over_http, read_request_head, send};
use mr_service::{Command, Local, Service};
use mr_store::Keeper;
use std::alloc::{AllocError, Global};
use std::io::{Read, Write};

fn batch_for(alloc: Global, body: &[u8]) -> Result<Command, Stop>
    ensures { GivesView command_view result (spec.command_in model.Pull body.now) }
{
    let position = Vec::from_slice(alloc, body)?;
    Ok(Command::Local(Local::BatchFor {
        position,
        max_lines: lines_over_http(),
    }))
}

fn command_of(alloc: Global, route: Route, body: &[u8]) -> Result<Command, Stop>
    ensures { GivesView command_view result (spec.command_in (route_view route) body.now) }
{
    match route {
        Route::Submissions => {
            let words = submission(alloc, body)?;
            Ok(Command::Local(Local::Submit(words)))
        }
        Route::Cancellations => {
            let words = cancellation(alloc, body)?;
            Ok(Command::Local(Local::Cancel {
                room: words.room,
                id: words.id,
            }))
        }
        Route::Day { room, day } => Ok(Command::Local(Local::Sheet { room, day })),
        Route::Request { room, id } => Ok(Command::Local(Local::Outcome { room, id })),
        Route::ErrorLog { room } => Ok(Command::Local(Local::Errors { room })),
        Route::Position => Ok(Command::Local(Local::Position)),
        Route::Pull => batch_for(alloc, body),
        Route::Push => Ok(Command::Receive(Vec::from_slice(alloc, body)?)),
    }
}

// The body behind the head, once as much as there is was read.
fn body_of(buffer: &[u8], start: usize, count: usize) -> Result<&[u8], Stop>
    requires { start ≤ length buffer.now }
    ensures { GivesView (λ b. b.now) result (spec.body_in count (drop start buffer.now)) }
{
    let rest = &buffer[start..];
    if rest.len() < count {
        return Err(Stop::Rejected(Rejection::BadRequest));
    }
    Ok(&rest[..count])
}

fn request_in<R: Read>(alloc: Global, reader: &mut R, buffer: &mut Vec<u8>) -> Result<Command, Stop>
    requires { buffer.old.items ≡ [] }
    ensures settles { OfInput (R.remaining reader.old) (λ input. Settles input result) }
    ensures reads { UnlessFault (ReadsOneRequest (R.remaining reader.old) (R.remaining reader.new)) result }
{
    let Some(start) = read_request_head(reader, buffer)? else {
        return Err(Stop::Rejected(Rejection::BadRequest));
    };
    let asked = asked_by(alloc, buffer.as_slice())?;
    fill_to(reader, buffer, start + asked.length)?;
    let body = body_of(buffer.as_slice(), start, asked.length)?;
    command_of(alloc, asked.route, body)
}

/// Reads one request: its command, or the first check that it fails.
fn request_from<R: Read>(alloc: Global, reader: &mut R) -> Result<Command, Stop>
    ensures settles { OfInput (R.remaining reader.old) (λ input. Settles input result) }
    ensures reads { UnlessFault (ReadsOneRequest (R.remaining reader.old) (R.remaining reader.new)) result }
{
    let mut buffer = Vec::new(alloc);
    request_in(alloc, reader, &mut buffer)
}

// What a command is answered. If no room is left for the bytes, the step stands.
fn answer_command<K: Keeper>(
    alloc: Global,
    command: &Command,
    service: &mut Service<K>,
) -> Result<Answer, ReadFault>
    ensures served { (known : Option Text) → OfInput known (λ input. Settles input (Ok command.now))
        → IsRequest K.Keeper service.old service.new known result AnswersTo MakesReply }
    ensures memory { IfErr result (λ e. e ≡ memory_fault) }
{
    let reply = service.ask(command);
    match answer_to_reply(alloc, &reply) {
        Ok(answer) => Ok(answer),
        Err(AllocError) => Err(ReadFault::Memory),
    }
}

// What a request that asks no command is answered.
fn answer_to_stop(stop: Stop) -> Result<Answer, ReadFault>
    ensures { StopsWith stop result }
{
    match stop {
        Stop::Rejected(rejection) => Ok(answer_to_rejection(rejection)),
        Stop::Fault(fault) => Err(fault),
    }
}

fn answer_one<R: Read, K: Keeper>(
    alloc: Global,
    reader: &mut R,
    service: &mut Service<K>,
) -> Result<Answer, ReadFault>
    ensures served { IsRequest K.Keeper service.old service.new (R.remaining reader.old) result AnswersTo MakesReply }
    ensures read { IfErr result (λ e. e ≡ read_fault → service.new ≡ service.old) }
    ensures reads { OnOk result (ReadsOneRequest (R.remaining reader.old) (R.remaining reader.new)) }
{
    match request_from(alloc, reader) {
        Ok(command) => answer_command(alloc, &command, service),
        Err(stop) => answer_to_stop(stop),
    }
}

/// Reads one request, serves it, writes its reply and answers the reply's status. What follows the request is passed over,
/// though up to 511 bytes behind the head may have been read. With the fault `Read` nothing was done or written; with `Memory` nothing was written, and the
/// command may have been done; with `Write` a prefix of the reply was written, and the command stands as done or refused. No
/// other fault comes. Whatever the reader gives, at most one command is done, and that one which the request asks. After every
/// reply but one of 503 an open keeper is open.
pub fn serve_one<R: Read, W: Write, K: Keeper>(
    alloc: Global,
    reader: &mut R,
    writer: &mut W,
    service: &mut Service<K>,
) -> Result<u16, WebFault>
    ensures served { IsRequest K.Keeper service.old service.new (R.remaining reader.old) result
        (EndsServed (W.contents writer.old) (W.contents writer.new)) (Writes (W.contents writer.old) (W.contents writer.new)) }
    ensures read { IfErr result (λ e. e ≡ fault_read → Keeps (W.contents writer.old) (W.contents writer.new) × (service.new ≡ service.old)) }
    ensures fault { IfErr result IsServeFault }
    ensures reads { OnceRead (ReadsOneRequest (R.remaining reader.old) (R.remaining reader.new)) result }
{
    let answer = answer_one(alloc, reader, service)?;
    send(writer, answer.bytes.as_slice())?;
    Ok(answer.status)
}
