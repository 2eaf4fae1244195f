//! The name of a replica.

use published::Naming;
use std::marker::Brand;

/// A type that stands for one shared replica: its publisher's publication, its tables and rows, and the source whose
/// records it takes. So parts of two replicas can't be mixed. Write a function over `J: ReplicaNaming` that takes a
/// publication's `Beginning` and the core, and requires `OpensReplica J.names J.preserve J.book J.known core beginning`.
/// Its caller passes the marker `Brand` for `J`. It says in its `Invariants.antt` that the names are those of the
/// arguments, and that `log` and `known` are `None`. If the record of each number is known before, they are that log and
/// its operations. Each record that the replica gets then has to be the one of its number.
pub trait ReplicaNaming: Naming {
    ghost use Rattle.replica_shared.specs.Names.{ReplicaNames};

    /// Its tables, its source, its rows before the first commit, its log, if that is known before, and whether it keeps
    /// all records.
    ghost names: { ReplicaNames };
}

impl ReplicaNaming for Brand {
    ghost use Rattle.std.specs.Prelude.{[], None, true};

    ghost names = { record { tables = []; source = []; base = []; log = None; keeps = true } };
}
