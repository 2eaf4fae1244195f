//! Each event that runs out of memory is sent once more, and succeeds: the replies are those of a world that met no refusal.

ghost use Rattle.world.specs.Seen.{seen};
ghost use Rattle.world.specs.State.{IsWorld};

use crate::tests::makers::InOne;
use crate::tests::steps::{Course, Step};
use log_device::Device;
use log_file::LogFault;
use record_codec::CodecFault;
use relay::ReplicaFault;
use schema::Memory;
use source_core::SourceFault;
use std::alloc::{AllocError, Global};
use std::fmt::Write;
use std::process::Abort;
use std::test::Fail;
use store_trait::RowStore;
use tests_stores::again;
use tracker_trait::Tracker;
use world::{Event, Reply, World};

/// Sends a world the events at its source and then at its replica, and compares the replies.
pub fn answer_all<S: RowStore + Drop, T: Tracker + Drop>(
    rt: &(impl Abort + AllocGlobal),
    mut world: InOne<S, T>,
    source: &[Step],
    replica: &[Step],
) -> Result<(), Fail>
    requires { IsWorld S.contents (seen world) }
{
    let told = answer_both(rt, rt.alloc(), &mut world, source, replica);
    drop(world);
    told
}

fn answer_both<S: RowStore, T: Tracker, D: Device, R: RowStore>(
    rt: &impl Abort,
    alloc: Global,
    world: &mut World<S, T, D, R>,
    source: &[Step],
    replica: &[Step],
) -> Result<(), Fail>
    requires { IsWorld R.contents (seen world.old) }
{
    let course = again!(Course::new(alloc, source, replica))?;
    answer_as_told(rt, alloc, world, &course.told)
}

/// Sends events, each once more if memory runs out, and compares each reply with the expected one.
fn answer_as_told<S: RowStore, T: Tracker, D: Device, R: RowStore>(
    rt: &impl Abort,
    alloc: Global,
    world: &mut World<S, T, D, R>,
    course: &[(Event, String)],
) -> Result<(), Fail>
    requires { IsWorld R.contents (seen world.old) }
{
    for (event, want) in course {
        let answer = again!(answer(alloc, world, event))?;
        assert_eq!(rt; answer.as_str(), want.as_str(), "{event:?}");
    }
    Ok(())
}

/// The reply to one event, as text, unless memory ran out.
fn answer<S: RowStore, T: Tracker, D: Device, R: RowStore>(
    alloc: Global,
    world: &mut World<S, T, D, R>,
    event: &Event,
) -> Result<String, Memory>
    requires { IsWorld R.contents (seen world.old) }
    ensures { IsWorld R.contents (seen world.new) }
{
    let Ok(replies) = world.run(alloc, &[*event]) else {
        return Err(Memory);
    };
    match replies.as_slice() {
        [reply] if !lacks_memory(reply) => text_again(alloc, reply),
        _ => Err(Memory),
    }
}

/// Whether the reply is that memory ran out.
fn lacks_memory(reply: &Reply) -> bool {
    matches!(
        reply,
        Reply::Source(SourceFault::Memory)
            | Reply::Replica(ReplicaFault::Memory)
            | Reply::Codec(CodecFault::Memory)
            | Reply::Log(LogFault::Memory)
    )
}

/// A reply as text, made once more if memory runs out.
fn text_again(alloc: Global, reply: &Reply) -> Result<String, Memory> {
    Ok(again!(text(alloc, reply))?)
}

/// A reply as text: rows by their columns, stamps as pairs, ids by their own text, the log in hexadecimal, and all else
/// in its debug form.
fn text(alloc: Global, reply: &Reply) -> Result<String, AllocError> {
    match reply {
        Reply::Seen { row: Some(row) } => format!(in alloc; "row {:?}", row.columns()),
        Reply::Flushed { first, stamps } => format!(in alloc; "from {first} {:?}", stamps.list()),
        Reply::Executed(ids) => format!(in alloc; "executed [{ids}]"),
        Reply::Read {
            upto,
            more: 0,
            row: Some(row),
        } => format!(in alloc; "{upto}: {:?}", row.columns()),
        Reply::Read {
            upto,
            more,
            row: Some(row),
        } => format!(in alloc; "{upto}+{more}: {:?}", row.columns()),
        Reply::Text(log) => hexadecimal(alloc, log.files()),
        other => format!(in alloc; "{other:?}"),
    }
}

/// The bytes of files in hexadecimal, one file after another.
fn hexadecimal(alloc: Global, files: &[Vec<u8>]) -> Result<String, AllocError> {
    let mut text = String::new(alloc);
    for file in files {
        put_digits(&mut text, file)?;
    }
    Ok(text)
}

fn put_digits(text: &mut String, bytes: &[u8]) -> Result<(), AllocError> {
    for byte in bytes {
        write!(text, "{byte:02x}")?;
    }
    Ok(())
}
