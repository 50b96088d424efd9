use mr_base::{LineCount, ServerId};
use mr_service::Local;
use std::alloc::AllocError;

/// What a command line asks for. Databases and files are named by their paths.
#[derive(Debug, Drop)]
pub enum Invocation {
    /// Makes a database for the replica of a server.
    Init {
        database: String,
        server: ServerId,
        primary: ServerId,
    },
    /// Asks the replica of a database.
    Ask {
        database: String,
        task: Task,
    },
    /// Serves that many connections on a port of this machine alone, one after the other.
    Serve {
        database: String,
        port: u16,
        count: u64,
    },
    /// Exchanges writes and commits with the peer at an address.
    Exchange {
        database: String,
        url: String,
    },
    /// Exchanges writes and commits between two databases.
    Bridge {
        database: String,
        other: String,
    },
    /// Runs the script in a file.
    Rehearse {
        script: String,
    },
}

/// What is asked of the replica of a database.
#[derive(Debug, Drop)]
pub enum Task {
    /// A command that the words alone give.
    Local(Local),
    /// To write the batch for the position in a file into another file, of that many item lines at most.
    Export {
        position: String,
        out: String,
        lines: LineCount,
    },
    /// To take the batch in a file.
    Import {
        batch: String,
    },
}

/// Why a command line is not understood.
#[derive(Clone, Copy, Debug, PartialEq, Eq)]
pub enum WordFault {
    /// The words are not of the table.
    Bad,
    Memory,
}

impl From<AllocError> for WordFault {
    ghost use Rattle.std.specs.Prelude.{◌≡◌};
    ghost use Rattle.mr_words.specs.declared.invocations.WordFault.TheVariants.{Memory};

    ghost from_gives = { λ _ e. e ≡ Memory };

    fn from(_error: AllocError) -> WordFault {
        WordFault::Memory
    }
}
