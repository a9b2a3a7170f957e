ghost use Rattle.std.specs.Prelude.{◌≡◌, ◌||◌, ◌+◌, ◌-◌, ◌<◌, ◌≤◌, ◌^◌, true, false, IsTrue, [], ◌∷◌, ◌++◌, Some, length, map, slice_set, OnOk, IfOk};
ghost use Rattle.h264_base.specs.Call.{HasRoom, span};
ghost use Rattle.std.specs.Prelude.{if◌then◌else◌};
ghost use Rattle.std.specs.List.{position, filter, list_all};
ghost use Rattle.arrayvec.specs.ArrayVec.{array_vec_len};
ghost use Rattle.h264_dpb.specs.Shown.{is_shown};
ghost use Rattle.h264_dpb.specs.Bumping.{least_with, least_count, is_next, is_below, left_at, bumped, made_room, stored_other, stored_reference};
ghost use Rattle.h264_dpb.specs.Bumping.{is_picture, is_held, missing_in, marked_by, is_in_use, marked, flushed};
ghost use Rattle.h264_dpb.specs.Writing.{Writes, calls_of};
ghost use Rattle.h264_dpb.specs.Buffered.{AreReady, AreUsed, Steps, is_ready, references, entry_of, still, room_step, stored_by, missing_by};
ghost use Rattle.h264_dpb.specs.Buffered.{HasRoomBy, IsShownBy};
ghost use Rattle.h264_dpb.specs.Steady.{is_marked};

use crate::entry::{Entry, Kind, Picture, Placed};
use crate::sink::FrameOut;
use arrayvec::ArrayVec;
use h264_base::{Failed, Stop};
use h264_plane::FrameStore;

pub(crate) type Entries = ArrayVec<Entry<Placed>, 16>;

fn least_with(count: i32, least: Option<i32>) -> i32
    ensures { result ≡ least_with count least }
{
    match least {
        None => count,
        Some(other) => count.min(other),
    }
}

fn lesser(entry: &Entry<Placed>, least: Option<i32>) -> Option<i32>
    ensures { result ≡ (if entry.now.waiting then Some (least_with entry.now.count least) else least) }
{
    if entry.waiting {
        Some(least_with(entry.count, least))
    } else {
        least
    }
}

/// The least count of the frames that wait.
fn least_count(entries: &[Entry<Placed>]) -> Option<i32>
    ensures { result ≡ least_count entries.now }
{
    let mut least = None;
    for i in (0..entries.len()).rev() {
        least = lesser(&entries[i], least);
    }
    least
}

fn is_next(count: i32, entry: &Entry<Placed>) -> bool
    ensures { result ≡ is_next count entry.now }
{
    entry.waiting && entry.count == count
}

/// The first frame that waits and has this count.
fn next_out(count: i32, entries: &[Entry<Placed>]) -> Option<usize>
    ensures { result ≡ position (is_next count) entries.now }
{
    entries.iter().position(|entry| is_next(count, entry))
}

fn is_below(count: i32, least: Option<i32>) -> bool
    ensures { result ≡ is_below count least }
{
    match least {
        None => true,
        Some(least) => count < least,
    }
}

/// Writes a frame, if the store lends it.
fn write<F: FrameStore, S: FrameOut>(
    entry: &Entry<Placed>,
    frames: &F,
    sink: &mut S,
) -> Result<(), Stop>
    requires room { HasRoom S.failures sink.old }
    requires place { IsTrue (is_shown (F.lent frames.now) entry.now.of) }
    ensures { Writes S.took S.failures (calls_of (F.lent frames.now) (entry.now ∷ [])) sink.old sink.new result }
{
    let Some(frame) = frames.frame(entry.of.place) else {
        return Ok(());
    };
    match sink.frame(entry.count, frame, entry.of.rectangle) {
        Ok(()) => Ok(()),
        Err(Failed) => Err(Stop::Write),
    }
}

fn put(k: usize, entry: Entry<Placed>, entries: &mut [Entry<Placed>])
    requires { k < length entries.old }
    ensures { entries.new ≡ slice_set entries.old k entry }
{
    entries[k] = entry;
}

/// A frame that was written stays where it is used for reference.
fn leave(k: usize, entries: &mut Entries)
    requires { k < length entries.old.items }
    ensures { entries.new.items ≡ left_at entries.old.items k }
{
    let mut entry = entries.as_slice()[k];
    if entry.reference {
        entry.waiting = false;
        put(k, entry, entries.as_mut_slice());
    } else {
        entries.remove(k);
    }
}

/// One output.
fn bump<F: FrameStore, S: FrameOut>(
    entries: &mut Entries,
    frames: &F,
    sink: &mut S,
) -> Result<(), Stop>
    requires room { HasRoom S.failures sink.old }
    requires ready { AreReady (F.lent frames.now) entries.old.items }
    ensures { Steps (span S.took S.failures sink.old sink.new) (F.lent frames.now) (bumped entries.old.items) entries.new.items result }
{
    let Some(least) = least_count(entries.as_slice()) else {
        return Ok(());
    };
    let Some(k) = next_out(least, entries.as_slice()) else {
        return Ok(());
    };
    write(&entries.as_slice()[k], frames, sink)?;
    leave(k, entries);
    Ok(())
}

/// Frames are output until one of so many places is free.
pub(crate) fn make_room<F: FrameStore, S: FrameOut>(
    places: usize,
    entries: &mut Entries,
    frames: &F,
    sink: &mut S,
) -> Result<(), Stop>
    requires room { HasRoom S.failures sink.old }
    requires ready { AreReady (F.lent frames.now) entries.old.items }
    ensures { Steps (span S.took S.failures sink.old sink.new) (F.lent frames.now)
        (made_room (length entries.old.items) places entries.old.items) entries.new.items result }
{
    for _turn in 0..entries.len() {
        if entries.len() < places {
            return Ok(());
        }
        bump(entries, frames, sink)?;
    }
    Ok(())
}

/// A frame that is not used for reference.
pub(crate) fn place<F: FrameStore, S: FrameOut>(
    places: usize,
    entry: Entry<Placed>,
    entries: &mut Entries,
    frames: &F,
    sink: &mut S,
) -> Result<(), Stop>
    requires room { HasRoom S.failures sink.old }
    requires ready { AreReady (F.lent frames.now) entries.old.items }
    requires own { IsTrue (is_shown (F.lent frames.now) entry.of) }
    requires few { places ≤ 16 }
    ensures { Steps (span S.took S.failures sink.old sink.new) (F.lent frames.now) (stored_other places entry entries.old.items) entries.new.items result }
{
    for _turn in 0..entries.len() {
        if entries.len() < places {
            entries.push(entry);
            return Ok(());
        }
        if is_below(entry.count, least_count(entries.as_slice())) {
            return write(&entry, frames, sink);
        }
        bump(entries, frames, sink)?;
    }
    if entries.len() < places {
        entries.push(entry);
        return Ok(());
    }
    write(&entry, frames, sink)
}

/// Whether a picture is held.
fn is_picture(picture: u64, held: Option<u64>) -> bool
    ensures { result ≡ is_picture picture held }
{
    match held {
        None => false,
        Some(number) => number == picture,
    }
}

fn is_held(held: &[Option<u64>], picture: u64) -> bool
    ensures { result ≡ is_held held.now picture }
{
    held.iter().any(|h| is_picture(picture, *h))
}

/// How many of the held frames do not exist.
pub(crate) fn missing_in(held: &[Option<u64>]) -> usize
    ensures { result ≡ missing_in held.now }
{
    held.iter().filter(|h| h.is_none()).count()
}

fn marked_by(held: &[Option<u64>], entry: &Entry<Placed>) -> Entry<Placed>
    ensures { result ≡ marked_by (λ n. is_held held.now n.picture) entry.now }
{
    Entry {
        of: entry.of,
        count: entry.count,
        waiting: entry.waiting,
        reference: is_held(held, entry.of.picture),
    }
}

fn mark_all(held: &[Option<u64>], entries: &mut [Entry<Placed>])
    ensures { entries.new ≡ map (marked_by (λ n. is_held held.now n.picture)) entries.old }
{
    for entry in entries {
        *entry = marked_by(held, entry);
    }
}

fn is_in_use(entry: &Entry<Placed>) -> bool
    ensures { result ≡ is_in_use entry.now }
{
    entry.waiting || entry.reference
}

/// Whether a frame stays as it is once these are held.
fn is_marked(held: &[Option<u64>], entry: &Entry<Placed>) -> bool
    ensures { result ≡ is_marked (λ n. is_held held.now n.picture) entry.now }
{
    entry.reference == is_held(held, entry.of.picture) && is_in_use(entry)
}

/// Whether all of them do.
pub(crate) fn all_marked(held: &[Option<u64>], entries: &[Entry<Placed>]) -> bool
    ensures { result ≡ list_all (is_marked (λ n. is_held held.now n.picture)) entries.now }
{
    entries.iter().all(|entry| is_marked(held, entry))
}

fn keep_used(entries: &mut Entries)
    ensures { entries.new.items ≡ filter is_in_use entries.old.items }
{
    entries.retain(|entry| is_in_use(entry));
}

/// Frames that are not held are not used for reference any more, and those that do not wait leave the buffer.
#[tactic(auto, unfolding(crate::specs::Bumping::marked))]
pub(crate) fn mark(held: &[Option<u64>], entries: &mut Entries)
    ensures { entries.new.items ≡ marked (λ n. is_held held.now n.picture) entries.old.items }
{
    mark_all(held, entries.as_mut_slice());
    keep_used(entries);
}

/// A frame that is used for reference.
pub(crate) fn store_reference<F: FrameStore, S: FrameOut>(
    places: usize,
    entry: Entry<Placed>,
    entries: &mut Entries,
    frames: &F,
    sink: &mut S,
) -> Result<(), Stop>
    requires room { HasRoom S.failures sink.old }
    requires ready { AreReady (F.lent frames.now) entries.old.items }
    requires used { AreUsed entries.old.items }
    requires few { references entries.old.items < places }
    requires most { places ≤ 16 }
    ensures { Steps (span S.took S.failures sink.old sink.new) (F.lent frames.now) (stored_reference places entry entries.old.items) entries.new.items result }
{
    make_room(places, entries, frames, sink)?;
    entries.push(entry);
    Ok(())
}

fn held_entry(picture: &Picture, reference: bool) -> Entry<Placed>
    ensures { result ≡ entry_of picture.now reference }
{
    Entry {
        of: picture.of,
        count: picture.count,
        waiting: true,
        reference,
    }
}

/// A picture that is used for reference, in a buffer of this size.
pub(crate) fn store_marked<F: FrameStore, S: FrameOut>(
    size: usize,
    picture: &Picture,
    entries: &mut Entries,
    frames: &F,
    sink: &mut S,
) -> Result<(), Stop>
    requires room { HasRoom S.failures sink.old }
    requires ready { AreReady (F.lent frames.now) entries.old.items }
    requires few { references (marked (still picture.now) entries.old.items) + missing_in picture.now.held.now < size }
    requires most { size ≤ 16 }
    ensures { Steps (span S.took S.failures sink.old sink.new) (F.lent frames.now)
        (stored_reference (size - missing_in picture.now.held.now) (entry_of picture.now true)
        (marked (still picture.now) entries.old.items)) entries.new.items result }
{
    mark(picture.held, entries);
    let places = size.saturating_sub(missing_in(picture.held));
    store_reference(places, held_entry(picture, true), entries, frames, sink)
}

/// The frame of a missing frame_num.
pub(crate) fn store_missing<F: FrameStore, S: FrameOut>(
    size: usize,
    picture: &Picture,
    entries: &mut Entries,
    frames: &F,
    sink: &mut S,
) -> Result<(), Stop>
    requires room { HasRoom S.failures sink.old }
    requires ready { AreReady (F.lent frames.now) entries.old.items }
    ensures { Steps (span S.took S.failures sink.old sink.new) (F.lent frames.now)
        (room_step (size - (missing_in picture.now.held.now - 1))
        (marked (still picture.now) entries.old.items)) entries.new.items result }
{
    mark(picture.held, entries);
    let others = missing_in(picture.held).saturating_sub(1);
    make_room(size.saturating_sub(others), entries, frames, sink)
}

/// A picture that is not used for reference.
pub(crate) fn store_other<F: FrameStore, S: FrameOut>(
    places: usize,
    picture: &Picture,
    entries: &mut Entries,
    frames: &F,
    sink: &mut S,
) -> Result<(), Stop>
    requires room { HasRoom S.failures sink.old }
    requires ready { AreReady (F.lent frames.now) entries.old.items }
    requires own { IsTrue (is_shown (F.lent frames.now) picture.now.of) }
    requires few { places ≤ 16 }
    ensures { Steps (span S.took S.failures sink.old sink.new) (F.lent frames.now)
        (stored_other places (entry_of picture.now false) entries.old.items) entries.new.items result }
{
    place(places, held_entry(picture, false), entries, frames, sink)
}

/// All that waits is written, or dropped, and nothing stays.
pub(crate) fn empty<F: FrameStore, S: FrameOut>(
    write: bool,
    entries: &mut Entries,
    frames: &F,
    sink: &mut S,
) -> Result<(), Stop>
    requires room { HasRoom S.failures sink.old }
    requires ready { AreReady (F.lent frames.now) entries.old.items }
    ensures steps { Steps (span S.took S.failures sink.old sink.new) (F.lent frames.now) (flushed write entries.old.items) entries.new.items result }
    ensures none { OnOk result (entries.new.items ≡ []) }
{
    if !write {
        entries.clear();
        return Ok(());
    }
    make_room(0, entries, frames, sink)?;
    entries.clear();
    Ok(())
}

/// Stores a picture in a buffer of this size, in which so many frames do not exist; how many there are then.
pub(crate) fn store<F: FrameStore, S: FrameOut>(
    size: usize,
    missing: usize,
    picture: &Picture,
    entries: &mut Entries,
    frames: &F,
    sink: &mut S,
) -> Result<usize, Stop>
    requires room { HasRoom S.failures sink.old }
    requires ready { AreReady (F.lent frames.now) entries.old.items }
    requires own { IsShownBy picture.now.kind (F.lent frames.now) picture.now }
    requires few { HasRoomBy picture.now.kind picture.now (record { entries = entries.old.items; missing = missing; size = size }) }
    requires most { size ≤ 16 }
    ensures steps { Steps (span S.took S.failures sink.old sink.new) (F.lent frames.now)
        (stored_by picture.now.kind picture.now (record { entries = entries.old.items; missing = missing; size = size })) entries.new.items result }
    ensures missing { IfOk result (λ n. n ≡ missing_by picture.now.kind picture.now
        (record { entries = entries.old.items; missing = missing; size = size })) }
    ensures within { length entries.old.items + missing ≤ size → IfOk result (λ n. length entries.new.items + n ≤ size) }
    ensures ready { OnOk result (AreReady (F.lent frames.now) entries.new.items) }
{
    match picture.kind {
        Kind::Reference => {
            store_marked(size, picture, entries, frames, sink)?;
            Ok(missing_in(picture.held))
        }
        Kind::Other => {
            store_other(size.saturating_sub(missing), picture, entries, frames, sink)?;
            Ok(missing)
        }
        Kind::Missing => {
            store_missing(size, picture, entries, frames, sink)?;
            Ok(missing_in(picture.held))
        }
    }
}
