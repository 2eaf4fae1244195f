//! `replica`: a replica that follows a wire, and replies to lines while workers execute what comes.

ghost use Rattle.std.specs.Prelude.{◌≡◌, ◌≢◌, ◌⊎◌, true, false, IfOk, IfSome, OnOk};
ghost use Rattle.replica_answers.specs.Conversation.{Converses, AnswersAs, Answers, UnlessLost};
ghost use Rattle.replica_answers.specs.Followed.{log_in};
ghost use Rattle.replica_answers.specs.Replica.{IsOverWire};
ghost use Rattle.replica_shared.specs.Names.{replica_names, IsNewReplica, OpensReplica, IsKnown};

use crate::applying::{Coming, apply_once};
use crate::promoting::promote;
use crate::reading::{Asked, End};
use btree_store::BTreeStore;
use log_tools::{Ending, Head, Lines, Stop, read_wire};
use published::{LeftRight, OpenError, open};
use replica_core::ReplicaCore;
use replica_shared::{ReplicaNaming, SharedReplica};
use std::alloc::{AllocError, Global};
use std::fs::File;
use std::io;
use std::io::{BufRead, BufReader, IsTerminal, Read, Write};
use std::marker::{Brand, PhantomData};
use std::rt::Files;
use std::sync::{Mutex, OnceLock, Wait};
use std::thread::{Threads, join_mut};
use std::time::Clock;
use uuid::Uuid;

/// How a replica works.
#[derive(Clone, Copy, Debug)]
pub struct Crew {
    /// The number of workers that execute records, 1 to 64.
    pub workers: usize,
    /// The only source whose wire is followed, if one was given.
    pub source: Option<Uuid>,
}

/// The replica, which commits in log order.
pub type Replica<K> = SharedReplica<BTreeStore, K>;

/// The wire after its head, the path for reports of its faults, its source, and the number of workers.
#[derive(Drop)]
struct NamedWire<F> {
    path: String,
    input: F,
    source: Uuid,
    workers: usize,
}

/// Follows the wire, and replies to each line of the input at once, until both have ended. It reports on `errors` that
/// the wire is closed, and each fault, when it happens.
pub fn replica<
    H: Files<File = File> + Alloc<A = Global> + Threads + Wait + Clock + Clone + Drop + Sync,
    R: Read + IsTerminal + Send,
    W: Write + Send,
    E: Write + Send,
>(
    rt: &H,
    alloc: Global,
    path: &str,
    crew: &Crew,
    new: io::Result<Uuid>,
    input: &mut R,
    output: &mut W,
    errors: &mut E,
) -> Ending {
    let file = match File::open(rt, path) {
        Ok(file) => file,
        Err(error) => return Stop::of_file(error).at(path).tell(errors),
    };
    match replica_over(rt, alloc, path, file, crew, new, input, output, errors) {
        Ok(ending) => ending,
        Err(stop) => stop.at(path).tell(errors),
    }
}

/// Like `replica`, but for a wire that was opened. If it stops, the caller reports why.
pub fn replica_over<
    H: Files<File = File> + Alloc<A = Global> + Threads + Wait + Clock + Clone + Drop + Sync,
    F: Read + Send + Drop,
    R: Read + IsTerminal + Send,
    W: Write + Send,
    E: Write + Send,
>(
    rt: &H,
    alloc: Global,
    path: &str,
    wire: F,
    crew: &Crew,
    new: io::Result<Uuid>,
    input: &mut R,
    output: &mut W,
    errors: &mut E,
) -> Result<Ending, Stop>
    ensures answers { OnOk result (Answers (F.remaining wire) (W.contents output.old) (W.contents output.new)) }
    // If the replica stopped before a line was read, nothing was written.
    ensures refused { UnlessLost result (Answers (F.remaining wire) (W.contents output.old) (W.contents output.new)
        ⊎ (W.contents output.new ≡ W.contents output.old)) }
{
    let mut wire = wire;
    let core = core_of(alloc, &mut wire, crew)?;
    let base = match core.base().copy() {
        Ok(base) => base,
        Err(memory) => {
            drop((core, wire));
            return Err(memory.into());
        }
    };
    let wire = match NamedWire::new(alloc, path, wire, core.source(), crew.workers) {
        Ok(wire) => wire,
        Err(memory) => {
            drop((core, base));
            return Err(memory.into());
        }
    };
    let publication = published::Beginning::of(base);
    run_core::<Brand, H, F, R, W, E>(
        rt,
        alloc,
        core,
        publication,
        wire,
        new,
        input,
        output,
        errors,
    )
}

impl<F> NamedWire<F> {
    fn new(
        alloc: Global,
        path: &str,
        input: F,
        source: Uuid,
        workers: usize,
    ) -> Result<NamedWire<F>, AllocError>
    where
        F: Drop,
        ensures input { IfOk result (λ wire. wire.input ≡ input) }
        ensures source { IfOk result (λ wire. wire.source ≡ source) }
    {
        Ok(NamedWire {
            path: String::from_str(alloc, path)?,
            input,
            source,
            workers: workers.clamp(1, 64),
        })
    }
}

/// A new replica of the wire's source, over the tables and rows in its head. It refuses, in this order, a wire without
/// a whole head, one of another source than was asked for, one that does not begin with the first record, and one whose
/// text says no tables and rows. The replica lets committed records go, since nobody asks it for them.
fn core_of<R: Read>(
    alloc: Global,
    input: &mut R,
    crew: &Crew,
) -> Result<ReplicaCore<BTreeStore>, Stop>
    ensures new { IfOk result (λ core. IsNewReplica (replica_names core) true core) }
    ensures lets_go { IfOk result (λ core. core.keeps ≡ false) }
    ensures over { IfOk result (λ core. IfSome (R.remaining input.old) (λ bytes. IsOverWire bytes (R.remaining input.new) core)) }
{
    let (source, head) = read_wire(alloc, crew.source, input)?;
    let store = match head.store(alloc) {
        Ok(store) => store,
        Err(fault) => return Err(Stop::of_wire_head(fault)),
    };
    let Head { schema, base } = head;
    drop(base);
    let workers = crew.workers.clamp(1, 64);
    let mut core = ReplicaCore::new(alloc, schema, source, store, workers, true)?;
    core.let_go();
    Ok(core)
}

/// Runs the replica, under the name of its history, until the wire and the lines have ended. Then it makes a log from
/// what the replica has, if a line asked for one.
fn run_core<
    K: ReplicaNaming + Send + Sync,
    H: Files<File = File> + Alloc<A = Global> + Threads + Wait + Clock + Clone + Drop + Sync,
    F: Read + Send + Drop,
    R: Read + IsTerminal + Send,
    W: Write + Send,
    E: Write + Send,
>(
    rt: &H,
    alloc: Global,
    core: ReplicaCore<BTreeStore>,
    publication: published::Beginning,
    wire: NamedWire<F>,
    new: io::Result<Uuid>,
    input: &mut R,
    output: &mut W,
    errors: &mut E,
) -> Result<Ending, Stop>
    requires replica { OpensReplica K.names K.preserve K.book K.known core publication }
    requires order { K.preserve ≡ true }
    requires log { K.names.log ≡ log_in (F.remaining wire.input) }
    requires source { wire.source ≡ K.names.source }
    ensures { UnlessLost result (AnswersAs K.names (W.contents output.old) (W.contents output.new)) }
{
    let mut lines = Lines::new(alloc, input.is_terminal());
    let mut buffered = match BufReader::new(alloc, &mut *input) {
        Ok(buffered) => buffered,
        Err(error) => {
            drop(core);
            return Err(error.into());
        }
    };
    let replica: Replica<K> = new_replica(rt, alloc, core, publication)?;
    let (ended, ending) = meet(
        rt,
        alloc,
        &replica,
        wire,
        &mut lines,
        &mut buffered,
        output,
        errors,
    );
    let (core, publisher) = replica.end();
    drop(publisher.close(rt));
    match ended {
        Err(stop) => {
            drop(core);
            Err(stop)
        }
        Ok(End::Read) => {
            drop(core);
            Ok(ending_of(ending, lines.is_good()))
        }
        Ok(End::Promote(wish)) => promote(
            rt,
            alloc,
            &core,
            wish,
            &new,
            &mut lines,
            &mut buffered,
            output,
            errors,
        ),
    }
}

/// How the program ends, by how the wire ended, and whether all lines were good.
pub fn ending_of(wire: Ending, are_good: bool) -> Ending
    ensures good { are_good ≡ true → result ≡ wire }
    ensures bad { are_good ≡ false → wire ≡ Ending.Done → result ≡ Ending.Refused }
    ensures other { wire ≢ Ending.Done → result ≡ wire }
{
    if wire == Ending::Done && !are_good {
        Ending::Refused
    } else {
        wire
    }
}

/// The replica for many threads, with one seat.
fn new_replica<K: ReplicaNaming>(
    rt: &impl Wait,
    alloc: Global,
    core: ReplicaCore<BTreeStore>,
    publication: published::Beginning,
) -> Result<Replica<K>, Stop>
    requires { OpensReplica K.names K.preserve K.book K.known core publication }
{
    let (first, second) = (BTreeStore::new(alloc), BTreeStore::new(alloc));
    let preserve = core.preserve();
    match open::<BTreeStore, K, _, LeftRight>(rt, alloc, publication, preserve, first, second, 1) {
        Ok((publisher, seats)) => Ok(SharedReplica::new(rt, alloc, core, publisher, seats)?),
        Err(fault) => {
            drop(core);
            Err(match fault {
                OpenError::Memory => Stop::Memory,
                OpenError::SeatRefused => Stop::NoReader,
            })
        }
    }
}

/// Replies to the lines while the wire is followed and its records are executed, until all of this has ended. It
/// returns how the lines ended, and how the wire did.
fn meet<
    K: ReplicaNaming + Send + Sync,
    H: Threads + Wait + Clock + Sync,
    F: Read + Send + Drop,
    R: BufRead + Send,
    W: Write + Send,
    E: Write + Send,
>(
    rt: &H,
    alloc: Global,
    replica: &Replica<K>,
    wire: NamedWire<F>,
    lines: &mut Lines,
    input: &mut R,
    output: &mut W,
    errors: &mut E,
) -> (Result<End, Stop>, Ending)
    requires order { K.preserve ≡ true }
    requires known { IsKnown K.names K.preserve K.known }
    requires log { K.names.log ≡ log_in (F.remaining wire.input) }
    requires source { wire.source ≡ K.names.source }
    ensures { UnlessLost result.0 (Converses K.names (W.contents output.old) (W.contents output.new)) }
{
    let NamedWire {
        path,
        input: coming,
        source,
        workers,
    } = wire;
    let coming = Coming {
        input: coming,
        of: PhantomData,
    };
    let closed = OnceLock::new();
    let errors = Mutex::new(&mut *errors);
    let asked = Asked {
        alloc,
        replica,
        source,
        closed: &closed,
        errors: &errors,
    };
    meet_over(
        rt, alloc, &asked, &path, workers, coming, lines, input, output,
    )
}

/// Like `meet`, but with what the threads share.
fn meet_over<
    K: ReplicaNaming + Send + Sync,
    H: Threads + Wait + Clock + Sync,
    F: Read + Send + Drop,
    R: BufRead + Send,
    W: Write + Send,
    E: Write + Send,
>(
    rt: &H,
    alloc: Global,
    asked: &Asked<K, E>,
    path: &str,
    workers: usize,
    coming: Coming<K, F>,
    lines: &mut Lines,
    input: &mut R,
    output: &mut W,
) -> (Result<End, Stop>, Ending)
    requires order { K.preserve ≡ true }
    requires known { IsKnown K.names K.preserve K.known }
    ensures { UnlessLost result.0 (Converses K.names (W.contents output.old) (W.contents output.new)) }
{
    let mut coming = Some(coming);
    // If no thread can be made, the second one runs first: so no line waits for a record of a wire that nobody reads.
    join_mut(
        rt,
        &mut ||
            requires { (K.preserve ≡ true) × IsKnown K.names K.preserve K.known }
            ensures { UnlessLost result (Converses K.names (W.contents output.entry.now) (W.contents output.exit.now)) }
        { converse(rt, asked, lines, input, output) },
        &mut move || apply_once(rt, alloc, asked, path, workers, &mut coming),
    )
}

/// Replies to the lines, reading through a separate seat.
fn converse<K: ReplicaNaming, H: Wait + Clock, R: BufRead, W: Write, E: Write>(
    rt: &H,
    asked: &Asked<K, E>,
    lines: &mut Lines,
    input: &mut R,
    output: &mut W,
) -> Result<End, Stop>
    requires order { K.preserve ≡ true }
    requires known { IsKnown K.names K.preserve K.known }
    ensures { UnlessLost result (Converses K.names (W.contents output.old) (W.contents output.new)) }
{
    let Some(mut seat) = asked.replica.seat(rt) else {
        return Err(Stop::NoReader);
    };
    asked.converse(rt, &mut seat, lines, input, output)
}
