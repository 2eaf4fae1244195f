//! The lines that a replica gets, and its reply to each.

ghost use Rattle.std.specs.Prelude.{◌≡◌, ℕ, ◌≤◌, true, OnOk};
ghost use Rattle.std.specs.Io.KnownBytes.{Appends};
ghost use mathlib.Core.List.{IsPrefix};
ghost use Rattle.gtid_set.specs.Ids.{first_ids};
ghost use Rattle.published.specs.History.{commits_in};
ghost use Rattle.published.specs.Status.{InOrder};
ghost use Rattle.published.specs.declared.counts.Counts.{Counts};
ghost use Rattle.script_text.specs.Printing.{line_of};
ghost use Rattle.replica_answers.specs.Conversation.{TellsAll, UnlessLost, help_text, status_text, waited_text};
ghost use Rattle.replica_answers.specs.Replica.{TellsRead};
ghost use Rattle.replica_shared.specs.Names.{IsKnown};

use crate::commands::{Command, Wish, command_in, wish_in};
use crate::following::pause;
use crate::replicating::Replica;
use btree_store::BTreeStore;
use gtid_set::GtidSet;
use log_tools::{Lines, Stop};
use published::ReadSeat;
use relay::ReplicaFault;
use replica_shared::ReplicaNaming;
use schema::RowId;
use script_text::printing::write_reply;
use std::alloc::{AllocError, Global};
use std::io;
use std::io::{BufRead, Write};
use std::sync::{Mutex, OnceLock, Wait};
use std::time::Clock;
use uuid::Uuid;
use world::Reply;

/// What `help` prints.
const HELP: &str = "\
read TABLE KEY          the row after the published commits, and how many these are: 'COMMITS: V ..' or 'COMMITS: none'
executed                the ids of the published commits
status                  how many records were received, are committed, and are published
wait N                  waits until the commit N is published, and says 'ok': a later read has it
promote PREFIX [ID]     makes a log over the rows, for a source, once the wire is closed; then the replica ends
";

/// A reader of the replica.
pub type Seat<K> = ReadSeat<BTreeStore, K>;

/// How the lines ended.
#[derive(Debug, Drop)]
pub enum End {
    /// All were read.
    Read,
    /// A log has to be made from what the replica has.
    Promote(Wish),
}

/// What became of a line.
#[derive(Drop)]
enum Answered {
    /// It got its reply, or says nothing.
    Told,
    /// It is bad.
    Bad,
    /// A log has to be made.
    Ends(Wish),
}

/// How a wait ended.
#[derive(Clone, Copy)]
enum Waited {
    /// The commit is published, and a later read has it.
    Published,
    /// The wire is closed, and the record did not come.
    Never,
    /// The replica stopped before the commit.
    Stopped(ReplicaFault),
}

/// What the threads share that follow the wire, execute its records and reply to lines.
#[derive(Drop)]
pub struct Asked<'a, K: ReplicaNaming, E: Write> {
    pub alloc: Global,
    pub replica: &'a Replica<K>,
    /// The identifier of the source whose records the replica takes.
    pub source: Uuid,
    /// Set once nothing more comes over the wire.
    pub closed: &'a OnceLock<()>,
    /// The stream on which faults are reported.
    pub errors: &'a Mutex<E>,
    ghost of_source: { source ≡ K.names.source },
}

impl<K: ReplicaNaming, E: Write> Asked<'_, K, E> {
    /// Replies to each line of the input at once, and reports a bad one with its number. It ends after the last line,
    /// or once a log has to be made.
    pub fn converse<H: Wait + Clock, R: BufRead, W: Write>(
        &self,
        rt: &H,
        seat: &mut Seat<K>,
        lines: &mut Lines,
        input: &mut R,
        output: &mut W,
    ) -> Result<End, Stop>
        requires order { K.preserve ≡ true }
        requires known { IsKnown K.names K.preserve K.known }
        ensures { UnlessLost result (TellsAll K.names seat.old seat.new (W.contents output.old) (W.contents output.new)) }
    {
        for _ in 0..u64::MAX {
            if let Some(end) = self.answer_next(rt, seat, lines, input, output)? {
                return Ok(end);
            }
        }
        Ok(End::Read)
    }

    /// Replies to the next line. It returns how the lines ended, if there is no next line or a log has to be made.
    fn answer_next<H: Wait + Clock, R: BufRead, W: Write>(
        &self,
        rt: &H,
        seat: &mut Seat<K>,
        lines: &mut Lines,
        input: &mut R,
        output: &mut W,
    ) -> Result<Option<End>, Stop>
        requires order { K.preserve ≡ true }
        requires known { IsKnown K.names K.preserve K.known }
        ensures { UnlessLost result (TellsAll K.names seat.old seat.new (W.contents output.old) (W.contents output.new)) }
    {
        self.prompt(rt, lines)?;
        let Some(line) = lines.next(input)? else {
            return Ok(Some(End::Read));
        };
        match self.answer(rt, seat, line, output)? {
            Answered::Told => {}
            Answered::Bad => self.refuse(rt, lines)?,
            Answered::Ends(wish) => return Ok(Some(End::Promote(wish))),
        }
        output.flush()?;
        Ok(None)
    }

    fn prompt<H: Wait>(&self, rt: &H, lines: &Lines) -> io::Result<()> {
        lines.prompt(&mut *self.errors.lock(rt))
    }

    fn refuse<H: Wait>(&self, rt: &H, lines: &mut Lines) -> io::Result<()> {
        lines.refuse(&mut *self.errors.lock(rt))
    }

    /// Replies to a line. If the line asks for nothing that a replica does, it is bad, and nothing is done.
    fn answer<H: Wait + Clock, W: Write>(
        &self,
        rt: &H,
        seat: &mut Seat<K>,
        line: &[u8],
        out: &mut W,
    ) -> Result<Answered, Stop>
        requires order { K.preserve ≡ true }
        requires known { IsKnown K.names K.preserve K.known }
        ensures { UnlessLost result (TellsAll K.names seat.old seat.new (W.contents out.old) (W.contents out.new)) }
    {
        match wish_in(self.alloc, line)? {
            Some(wish) if self.closed.get().is_some() => Ok(Answered::Ends(wish)),
            Some(_) => {
                writeln!(out, "wire open")?;
                Ok(Answered::Told)
            }
            None => match command_in(line) {
                Some(command) => {
                    self.obey(rt, seat, command, out)?;
                    Ok(Answered::Told)
                }
                None => Ok(Answered::Bad),
            },
        }
    }

    /// Does what a line asks for, and writes the reply.
    fn obey<H: Wait + Clock, W: Write>(
        &self,
        rt: &H,
        seat: &mut Seat<K>,
        command: Command,
        out: &mut W,
    ) -> Result<(), Stop>
        requires order { K.preserve ≡ true }
        requires known { IsKnown K.names K.preserve K.known }
        ensures { UnlessLost result (TellsAll K.names seat.old seat.new (W.contents out.old) (W.contents out.new)) }
    {
        match command {
            Command::Skipped => Ok(()),
            Command::Help => Ok(tell_help(out)?),
            Command::Read(row) => tell_read(self.alloc, seat, row, out),
            Command::Executed => self.tell_executed(rt, out),
            Command::Status => Ok(self.tell_status(rt, out)?),
            Command::Wait(gno) => {
                let came = self.wait(rt, seat, gno);
                Ok(tell_waited(out, came)?)
            }
        }
    }

    /// Writes the ids of the published commits, which are the first of the source's.
    fn tell_executed<H: Wait, W: Write>(&self, rt: &H, out: &mut W) -> Result<(), Stop>
        ensures { UnlessLost result ((count : ℕ) × Appends (W.contents out.old) (W.contents out.new)
            (line_of (Reply.Executed (first_ids self.now.source count)))) }
    {
        let published = self.replica.status(rt).published.min(i64::MAX as u64);
        let ids = GtidSet::first(self.alloc, self.source, published)?;
        write_reply(self.alloc, out, &Reply::Executed(ids))?;
        Ok(())
    }

    /// Writes how many records were received, are committed, and are published.
    fn tell_status<H: Wait, W: Write>(&self, rt: &H, out: &mut W) -> io::Result<()>
        ensures { OnOk result ((counts : Counts) × InOrder counts
            × Appends (W.contents out.old) (W.contents out.new) (status_text counts)) }
    {
        let counts = self.replica.status(rt);
        writeln!(
            out,
            "received {} committed {} published {}",
            counts.received, counts.committed, counts.published
        )
    }

    /// Waits until the commit with this number is published, and lets the seat learn it. It stops waiting if the
    /// replica stops, or if the wire is closed and the record did not come.
    fn wait<H: Wait + Clock>(&self, rt: &H, seat: &mut Seat<K>, gno: u64) -> Waited
        requires { K.preserve ≡ true }
        ensures published { result ≡ Waited.Published → gno ≤ commits_in seat.new }
        ensures kept { IsPrefix seat.old seat.new }
    {
        if self.comes(rt, gno) {
            self.learn(rt, seat, gno)
        } else {
            Waited::Never
        }
    }

    /// Waits until the record with this number came. It returns `false` if the wire is closed and the record did not
    /// come.
    fn comes<H: Wait + Clock>(&self, rt: &H, gno: u64) -> bool {
        for _ in rt.forever() {
            // This comes first, since records may come until it is set.
            let is_closed = self.closed.get().is_some();
            if gno <= self.replica.status(rt).received {
                return true;
            }
            if is_closed {
                return false;
            }
            pause(rt);
        }
        unreachable!()
    }

    /// Like `wait`, but for a record that came.
    fn learn<H: Wait>(&self, rt: &H, seat: &mut Seat<K>, gno: u64) -> Waited
        requires { K.preserve ≡ true }
        ensures published { result ≡ Waited.Published → gno ≤ commits_in seat.new }
        ensures kept { IsPrefix seat.old seat.new }
    {
        match self.replica.wait_for(rt, gno) {
            Ok(notice) => {
                seat.learn(notice);
                Waited::Published
            }
            Err(fault) => Waited::Stopped(fault),
        }
    }
}

/// Writes the row as the published commits leave it, and how many these are. They begin with all that the seat saw or
/// learnt.
fn tell_read<K: ReplicaNaming, W: Write>(
    alloc: Global,
    seat: &mut Seat<K>,
    row: RowId,
    out: &mut W,
) -> Result<(), Stop>
    requires order { K.preserve ≡ true }
    requires known { IsKnown K.names K.preserve K.known }
    ensures told { OnOk result (TellsRead K.names row seat.old seat.new (W.contents out.old) (W.contents out.new)) }
    ensures all { UnlessLost result (TellsAll K.names seat.old seat.new (W.contents out.old) (W.contents out.new)) }
{
    let Some(answer) = seat.read(row) else {
        return Err(Stop::NoReader);
    };
    let reply = Reply::Read {
        upto: answer.upto,
        more: answer.more,
        row: answer.row,
    };
    write_reply(alloc, out, &reply)?;
    Ok(())
}

/// Writes the list of commands.
#[tactic(auto, unfolding(crate::specs::Conversation::help_text))]
fn tell_help<W: Write>(out: &mut W) -> io::Result<()>
    ensures { OnOk result (Appends (W.contents out.old) (W.contents out.new) help_text) }
{
    out.write_all(HELP.as_bytes())
}

/// Writes how a wait ended.
fn tell_waited<W: Write>(out: &mut W, came: Waited) -> io::Result<()>
    ensures { OnOk result (Appends (W.contents out.old) (W.contents out.new) (waited_text came)) }
{
    match came {
        Waited::Published => out.write_all(b"ok\n"),
        Waited::Never => out.write_all(b"wire closed\n"),
        Waited::Stopped(fault) => writeln!(out, "{fault}"),
    }
}
