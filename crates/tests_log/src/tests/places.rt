//! Files at their places: what each place asks of a head, the order of its refusals, and two files of one log.

ghost use Rattle.std.specs.Prelude.{◌≡◌, None, IfOk};
ghost use Rattle.log_file.specs.Place.{Fits};

use crate::common::source;
use crate::tests::makers::{LOG, LOG_ONE, LOG_THREE};
use log_device::{Device, MemoryDevice};
use log_file::{LogFault, LogFile, Place, Synced, find};
use record_codec::{CodecFault, Version};
use std::alloc::Global;
use std::test::Fail;
use tests_stores::again;
use tests_stores::common::boxed;
use uuid::Uuid;

/// The place after a file of the source, if the next gno is this.
fn behind(next: u128) -> Place {
    Place::Behind {
        source: source(),
        next,
    }
}

/// The place after a file of another source.
fn behind_another(next: u128) -> Place {
    Place::Behind {
        source: Uuid::from_u128(1),
        next,
    }
}

/// The first `len` bytes of the log of one insert in the third form, with this first gno in its header.
fn third(alloc: Global, first: u8, len: usize) -> Result<Vec<u8>, LogFault> {
    let mut bytes = LOG_THREE;
    bytes[31] = first;
    let mut text = Vec::new(alloc);
    text.extend_from_slice(bytes.get(..len).unwrap_or(&bytes))?;
    Ok(text)
}

/// The next gno and the number of groups of the file that these bytes begin with at this place, and how many bytes are
/// left of it.
fn found(alloc: Global, bytes: &[u8], place: &Place) -> Result<(u128, usize, u64), LogFault> {
    let mut device = MemoryDevice::of(bytes.to_vec(alloc)?);
    let found = find(alloc, &mut device, *place)?;
    Ok((found.next(), found.groups(), device.len()))
}

/// Like `found`, but for the bytes of `third`.
fn third_found(
    alloc: Global,
    first: u8,
    len: usize,
    place: &Place,
) -> Result<(u128, usize, u64), LogFault> {
    found(alloc, &third(alloc, first, len)?, place)
}

/// Catches a first file that may begin anywhere, and a later one if a part of its head, or of the gno, is not compared.
#[test]
fn a_head_fits_its_place_again(rt: HostRuntime) -> Result<(), Fail> {
    let out_of_turn = Err(LogFault::OutOfTurn);
    for (place, wanted) in [
        (Place::Any, Ok((2, 1, 101))),
        (Place::First, Ok((2, 1, 101))),
        (behind(1), Ok((2, 1, 101))),
        (behind(0), out_of_turn),
        (behind(2), out_of_turn),
        (behind((1 << 64) + 1), out_of_turn),
        (behind_another(1), out_of_turn),
    ] {
        let told = again!(LogFault::Memory => third_found(rt.alloc(), 1, 101, &place));
        assert_eq!(rt; told, wanted);
    }
    Ok(())
}

/// Catches a fault of a group that is reported before one of the head, and one of the gno that is reported before one
/// of the form.
#[test]
fn faults_of_a_place_come_in_order_again(rt: HostRuntime) -> Result<(), Fail> {
    let short = Err(LogFault::Codec(CodecFault::Short));
    let out_of_turn = Err(LogFault::OutOfTurn);
    for (first, len, place, wanted) in [
        (3, 31, behind(2), Err(LogFault::BadMagic)),
        (3, 32, Place::First, out_of_turn),
        (3, 32, behind(2), out_of_turn),
        (3, 32, behind(3), short),
        (3, 32, Place::Any, short),
        (1, 32, Place::First, short),
        // The group's first gno is 1.
        (3, 101, behind(3), out_of_turn),
    ] {
        let told = again!(LogFault::Memory => third_found(rt.alloc(), first, len, &place));
        assert_eq!(rt; told, wanted);
    }
    Ok(())
}

/// Catches a log of an older form that is taken after another file, or refused as the first.
#[test]
fn older_forms_stand_first_again(rt: HostRuntime) -> Result<(), Fail> {
    for bytes in [LOG_ONE.as_slice(), LOG.as_slice()] {
        let bad_magic = Err(LogFault::BadMagic);
        let whole = Ok((2, 1, bytes.len() as u64));
        for (place, wanted) in [
            (Place::Any, whole),
            (Place::First, whole),
            (behind(1), bad_magic),
            (behind_another(7), bad_magic),
        ] {
            let told = again!(LogFault::Memory => found(rt.alloc(), bytes, &place));
            assert_eq!(rt; told, wanted);
        }
    }
    Ok(())
}

/// What readers see of the file of these bytes, at this place.
fn synced_at(alloc: Global, bytes: &[u8], place: Place) -> Result<Synced, LogFault>
    ensures fits { IfOk result (λ s. Fits place s.head) }
    ensures none { IfOk result (λ s. s.prepared ≡ None) }
{
    let mut device = MemoryDevice::of(bytes.to_vec(alloc)?);
    let found = find(alloc, &mut device, place)?;
    Ok(found.into_synced())
}

/// What readers see of two files, the second after the first.
fn joined(alloc: Global, first: &[u8], second: &[u8]) -> Result<Synced, LogFault> {
    let mut all = synced_at(alloc, first, Place::First)?;
    if all.version() != Version::Two {
        return Err(LogFault::BadMagic);
    }
    let place = Place::Behind {
        source: all.source(),
        next: all.next(),
    };
    let next = synced_at(alloc, second, place)?;
    all.join(next)?;
    Ok(all)
}

/// The file `LOG_THREE`, finished, and the file after it: the same insert with gno and sequence number 2, and the parent 1.
fn two_files() -> ([u8; 101], [u8; 101]) {
    let (mut first, mut second) = (LOG_THREE, LOG_THREE);
    first[100] = 1;
    for at in [31, 48, 56] {
        second[at] = 2;
    }
    second[64] = 1;
    (first, second)
}

/// Catches a group or a record that is lost when the next file joins, or a file that is printed with the groups of the other.
#[test]
fn two_files_are_one_log_again(rt: HostRuntime) -> Result<(), Fail> {
    let (alloc, (first, second)) = (rt.alloc(), two_files());
    let all = boxed(
        alloc,
        again!(LogFault::Memory => joined(alloc, &first, &second))?,
    )?;
    assert_eq!(rt; (all.first(), all.count()), (1, 2));
    assert_eq!(rt; all.groups().len(), 2);
    let text = again!(all.file_text(alloc, 1, 0, 1, true))?;
    assert_eq!(rt; text.as_slice(), first.as_slice());
    let text = again!(all.file_text(alloc, 2, 1, 2, false))?;
    assert_eq!(rt; text.as_slice(), second.as_slice());
    let turned = again!(LogFault::Memory => joined(alloc, &second, &first));
    assert_eq!(rt; turned.err(), Some(LogFault::OutOfTurn));
    Ok(())
}

/// The first gno, the number of records, whether it is finished and the number of bytes, of a log that is opened from
/// what was found.
fn opened_at(
    alloc: Global,
    bytes: &[u8],
    place: &Place,
) -> Result<(u64, u128, bool, u64), LogFault> {
    let mut device = MemoryDevice::of(bytes.to_vec(alloc)?);
    let found = find(alloc, &mut device, *place)?;
    let log = LogFile::of_found(alloc, device, found);
    let told = (log.first(), log.count(), log.finished());
    Ok((told.0, told.1, told.2, log.into_device().len()))
}

/// Catches a file that is found at its place, and opened as another.
#[test]
fn what_is_found_is_opened_again(rt: HostRuntime) -> Result<(), Fail> {
    let (first, second) = two_files();
    for (bytes, place, wanted) in [
        (first.as_slice(), Place::First, (1, 1, true, 101)),
        (second.as_slice(), behind(2), (2, 1, false, 101)),
    ] {
        let told = again!(LogFault::Memory => opened_at(rt.alloc(), bytes, &place));
        assert_eq!(rt; told, Ok(wanted));
    }
    Ok(())
}
