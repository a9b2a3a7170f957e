//! A stream that is decoded as it comes, with its frames in a queue.
#![tactic(auto)]

ghost use Rattle.std.specs.Prelude.{◌≡◌, ℕ, ◌+◌, ◌-◌, ◌^◌, ◌⊎◌, List, [], ◌∷◌, ◌++◌, Result, IfOk, IfErr, OnOk, OnErr, IfSome, IfNone, Some, Ok, Err};
ghost use Rattle.h264_base.specs.declared.stop.Stop.{Stop};
ghost use Rattle.h264_verify.specs.Units.{terms_of};
ghost use Rattle.h264_base.specs.declared.summary.Summary.{Summary};
ghost use Rattle.h264_verify.specs.declared.state.Terms.{Terms};
ghost use Rattle.h264_stream.specs.Queue.{told_of_frames};
ghost use Rattle.h264_stream.specs.Decoding.{IsDecoding, HasDecoded, HasGrown};

use crate::filling::{Before, Filling};
use crate::info::StreamInfo;
use crate::notes::Notes;
use crate::queue::{FrameQueue, ShownFrame};
use crate::sent::{NotSent, StartCodes, is_unit, start_code};
use h264_base::{Mode, Stop, Target};
use h264_lines::answer::told_answer;
use h264_pages::pages::Page;
use h264_verify::{Session, Summary};
use std::alloc::Global;
use std::marker::Brand;
use std::mem;

/// What a piece of a stream left: the queue with its frames, the notes, and the answer where one is known.
#[derive(Drop)]
struct Fed {
    queue: FrameQueue,
    notes: Notes,
    answer: Option<Result<Summary, Stop>>,
}

/// Judges the next piece of a stream, and puts its frames into a queue.
fn feed<K: Before>(session: &mut Session, piece: &[u8], queue: FrameQueue, notes: Notes) -> Fed
    requires handed_out { queue.handed_out ≡ K.handed_out }
    requires waiting { told_of_frames queue.waiting.items ≡ K.waiting }
    ensures goes { (terms : Terms) (bytes : List ℕ) → IsDecoding terms session.old bytes queue.handed_out queue.waiting.items →
        IfNone result.answer (IsDecoding terms session.new (bytes ++ piece.now) result.queue.handed_out result.queue.waiting.items) }
    ensures answers { (terms : Terms) (bytes : List ℕ) → IsDecoding terms session.old bytes queue.handed_out queue.waiting.items →
        IfSome result.answer (λ answer. (later : List ℕ) →
        HasDecoded terms ((bytes ++ piece.now) ++ later) answer result.queue.handed_out result.queue.waiting.items) }
    ensures grows { (terms : Terms) (bytes : List ℕ) → IsDecoding terms session.old bytes queue.handed_out queue.waiting.items →
        HasGrown queue.handed_out queue.waiting.items result.queue.handed_out result.queue.waiting.items }
{
    let mut sink: Filling<K> = Filling::new(queue, notes);
    let fed = session.feed(piece, &mut sink);
    let (queue, notes) = sink.into_parts();
    match fed {
        Ok(()) => Fed {
            queue,
            notes,
            answer: None,
        },
        Err(stop) => Fed {
            queue,
            notes,
            answer: Some(told_answer(Err(stop), false)),
        },
    }
}

/// What the end of a stream left: the queue with its last frames, the notes, and the answer.
#[derive(Drop)]
struct Concluded {
    queue: FrameQueue,
    notes: Notes,
    answer: Result<Summary, Stop>,
}

/// Judges the end of a stream, and puts its last frames into a queue.
fn conclude<K: Before>(session: Session, queue: FrameQueue, notes: Notes) -> Concluded
    requires handed_out { queue.handed_out ≡ K.handed_out }
    requires waiting { told_of_frames queue.waiting.items ≡ K.waiting }
    ensures answers { (terms : Terms) (bytes : List ℕ) → IsDecoding terms session bytes queue.handed_out queue.waiting.items →
        HasDecoded terms bytes result.answer result.queue.handed_out result.queue.waiting.items }
    ensures grows { (terms : Terms) (bytes : List ℕ) → IsDecoding terms session bytes queue.handed_out queue.waiting.items →
        HasGrown queue.handed_out queue.waiting.items result.queue.handed_out result.queue.waiting.items }
{
    let mut sink: Filling<K> = Filling::new(queue, notes);
    let answer = told_answer(session.finish(&mut sink), false);
    let (queue, notes) = sink.into_parts();
    Concluded {
        queue,
        notes,
        answer,
    }
}

/// Judges the next piece of a stream, and puts its frames into a queue: the answer where one is known.
fn feed_queue(
    session: &mut Session,
    piece: &[u8],
    queue: &mut FrameQueue,
    notes: &mut Notes,
) -> Option<Result<Summary, Stop>>
    ensures goes { (terms : Terms) (bytes : List ℕ) → IsDecoding terms session.old bytes queue.old.handed_out queue.old.waiting.items →
        IfNone result (IsDecoding terms session.new (bytes ++ piece.now) queue.new.handed_out queue.new.waiting.items) }
    ensures answers { (terms : Terms) (bytes : List ℕ) → IsDecoding terms session.old bytes queue.old.handed_out queue.old.waiting.items →
        IfSome result (λ answer. (later : List ℕ) →
        HasDecoded terms ((bytes ++ piece.now) ++ later) answer queue.new.handed_out queue.new.waiting.items) }
    ensures grows { (terms : Terms) (bytes : List ℕ) → IsDecoding terms session.old bytes queue.old.handed_out queue.old.waiting.items →
        HasGrown queue.old.handed_out queue.old.waiting.items queue.new.handed_out queue.new.waiting.items }
{
    let fed = feed::<Brand>(session, piece, queue.take_all(), notes.take_all());
    *queue = fed.queue;
    *notes = fed.notes;
    fed.answer
}

/// Judges the end of a stream, and puts its last frames into a queue: the answer.
fn conclude_queue(
    session: Session,
    queue: &mut FrameQueue,
    notes: &mut Notes,
) -> Result<Summary, Stop>
    ensures answers { (terms : Terms) (bytes : List ℕ) → IsDecoding terms session bytes queue.old.handed_out queue.old.waiting.items →
        HasDecoded terms bytes result queue.new.handed_out queue.new.waiting.items }
    ensures grows { (terms : Terms) (bytes : List ℕ) → IsDecoding terms session bytes queue.old.handed_out queue.old.waiting.items →
        HasGrown queue.old.handed_out queue.old.waiting.items queue.new.handed_out queue.new.waiting.items }
{
    let concluded = conclude::<Brand>(session, queue.take_all(), notes.take_all());
    *queue = concluded.queue;
    *notes = concluded.notes;
    concluded.answer
}

/// How far a decoder is.
#[derive(Drop)]
pub enum Standing {
    /// The stream is judged so far.
    Running(Session),
    /// The answer is known.
    Fallen(Result<Summary, Stop>),
}

/// A stream that is decoded as it comes, and its frames, which wait until they are taken.
///
/// It is sent bytes of a byte stream, or NAL units without start codes. What is judged is the byte stream: all that was sent, with a start code put in
/// before each such unit.
///
/// Each frame is copied once, when it is due, into the memory of one that was given back where there is one. The answer is the verdict of the bytes
/// that were given; or Memory, where memory was refused to the session or to a frame. It is never Read or Write. It is told with its place in what was sent:
/// start codes that were put in are not counted. Once it is known each call answers it again, and changes nothing.
#[derive(Drop)]
pub struct Decoder {
    standing: Standing,
    queue: FrameQueue,
    notes: Notes,
    codes: StartCodes,
}

impl Decoder {
    ghost use Rattle.std.specs.Prelude.{◌≤◌, ◌*◌, length, vec_len, vec_capacity};
    ghost use Rattle.h264_units.specs.Stream.{IsBody, input_limit};
    ghost use Rattle.h264_stream.specs.Given.{IsGiven, HasAnswered, HasTold};
    ghost use Rattle.h264_stream.specs.Sent.{start_code, sent_answer};
    ghost use Rattle.h264_stream.specs.Noted.{verdict_object, IsInfo};
    ghost use Rattle.h264_pages.specs.Pages.{text_on};
    ghost use Rattle.std.specs.Prelude.{None, MatchOption};
    ghost use Rattle.h264_stream.specs.declared.decoder.Standing.TheVariants.{Fallen};

    /// A decoder before the first byte, of a stream that is judged so far and for this target. Memory: it was refused.
    pub fn new(alloc: Global, mode: Mode, target: Target) -> Result<Decoder, Stop>
        ensures given { IfOk result (λ d. IsGiven (terms_of mode target) d []) }
        ensures handed_out { IfOk result (λ d. d.queue.handed_out ≡ 0) }
        ensures codes { IfOk result (λ d. d.codes.bits.items ≡ []) }
        ensures err { IfErr result (λ e. e ≡ Stop.Memory) }
    {
        let session = Session::new(alloc, mode, target)?;
        Ok(Decoder {
            standing: Standing::Running(session),
            queue: FrameQueue::new(alloc),
            notes: Notes::new(alloc),
            codes: StartCodes::new(alloc),
        })
    }

    /// A decoder as `new` gives it, whose verdict is explained with its place: `object` says where it stands and what was found there. It notes each element,
    /// which takes up to 30 % more time, 100 kB, and 80 bytes for each picture. Memory: it was refused.
    pub fn explaining(alloc: Global, mode: Mode, target: Target) -> Result<Decoder, Stop>
        ensures given { IfOk result (λ d. IsGiven (terms_of mode target) d []) }
        ensures handed_out { IfOk result (λ d. d.queue.handed_out ≡ 0) }
        ensures codes { IfOk result (λ d. d.codes.bits.items ≡ []) }
        ensures err { IfErr result (λ e. e ≡ Stop.Memory) }
    {
        let decoder = Decoder::new(alloc, mode, target)?;
        match Notes::explaining(alloc) {
            Ok(notes) => Ok(Decoder { notes, ..decoder }),
            Err(_) => Err(Stop::Memory),
        }
    }

    /// Judges the next bytes of the byte stream. None: it goes on. Else the answer, however it goes on.
    fn judge(&mut self, piece: &[u8]) -> Option<Result<Summary, Stop>>
        ensures given { (terms : Terms) (bytes : List ℕ) → IsGiven terms self.old bytes →
            IfNone result (IsGiven terms self.new (bytes ++ piece.now)) }
        ensures answered { (terms : Terms) (bytes : List ℕ) → IsGiven terms self.old bytes →
            IfSome result (λ answer. (later : List ℕ) → HasAnswered terms self.new ((bytes ++ piece.now) ++ later) answer) }
        // No frame is handed out, and what waited comes first.
        ensures grows { (terms : Terms) (bytes : List ℕ) → IsGiven terms self.old bytes →
            HasGrown self.old.queue.handed_out self.old.queue.waiting.items self.new.queue.handed_out self.new.queue.waiting.items }
        ensures again { (answer : Result Summary Stop) → self.old.standing ≡ Fallen answer → (result ≡ Some answer) × (self.new ≡ self.old) }
        ensures codes { self.new.codes.bits.items ≡ self.old.codes.bits.items }
    {
        let answer = match &mut self.standing {
            Standing::Fallen(answer) => return Some(*answer),
            Standing::Running(session) => {
                self.notes.note_bytes(piece);
                self.codes.pass(piece.len());
                match feed_queue(session, piece, &mut self.queue, &mut self.notes) {
                    None => return None,
                    Some(answer) => answer,
                }
            }
        };
        self.standing = Standing::Fallen(answer);
        Some(answer)
    }

    /// Judges a start code and the unit after it, as `judge` does.
    fn judge_unit(&mut self, unit: &[u8]) -> Option<Result<Summary, Stop>>
        ensures given { (terms : Terms) (bytes : List ℕ) → IsGiven terms self.old bytes →
            IfNone result (IsGiven terms self.new (bytes ++ (start_code ++ unit.now))) }
        ensures answered { (terms : Terms) (bytes : List ℕ) → IsGiven terms self.old bytes →
            IfSome result (λ answer. (later : List ℕ) → HasAnswered terms self.new ((bytes ++ (start_code ++ unit.now)) ++ later) answer) }
        ensures grows { (terms : Terms) (bytes : List ℕ) → IsGiven terms self.old bytes →
            HasGrown self.old.queue.handed_out self.old.queue.waiting.items self.new.queue.handed_out self.new.queue.waiting.items }
        ensures codes { self.new.codes.bits.items ≡ self.old.codes.bits.items }
    {
        match self.judge(start_code()) {
            Some(answer) => Some(answer),
            None => {
                self.notes.note_start_code();
                self.judge(unit)
            }
        }
    }

    /// Decodes the next bytes. None: the stream goes on. Else the answer, however it goes on.
    pub fn send(&mut self, piece: &[u8]) -> Option<Result<Summary, Stop>>
        ensures given { (terms : Terms) (bytes : List ℕ) → IsGiven terms self.old bytes →
            IfNone result (IsGiven terms self.new (bytes ++ piece.now)) }
        ensures told { (terms : Terms) (bytes : List ℕ) → IsGiven terms self.old bytes →
            IfSome result (λ told. (later : List ℕ) → HasTold terms self.new ((bytes ++ piece.now) ++ later) told) }
        // No frame is handed out, and what waited comes first.
        ensures grows { (terms : Terms) (bytes : List ℕ) → IsGiven terms self.old bytes →
            HasGrown self.old.queue.handed_out self.old.queue.waiting.items self.new.queue.handed_out self.new.queue.waiting.items }
        ensures again { (answer : Result Summary Stop) → self.old.standing ≡ Fallen answer →
            (result ≡ Some (sent_answer self.old.codes.bits.items answer)) × (self.new ≡ self.old) }
        ensures codes { self.new.codes.bits.items ≡ self.old.codes.bits.items }
    {
        let answer = self.judge(piece)?;
        Some(self.codes.sent_answer(answer))
    }

    /// Decodes the next NAL unit, which has no start code: one is put in before it. None: the stream goes on. Else the answer, however it goes on.
    /// Err: nothing was sent.
    pub fn send_unit(&mut self, unit: &[u8]) -> Result<Option<Result<Summary, Stop>>, NotSent>
        ensures given { (terms : Terms) (bytes : List ℕ) → IsGiven terms self.old bytes →
            IfOk result (λ told. IfNone told (IsGiven terms self.new (bytes ++ (start_code ++ unit.now)))) }
        ensures told { (terms : Terms) (bytes : List ℕ) → IsGiven terms self.old bytes →
            IfOk result (λ told. IfSome told (λ told. (later : List ℕ) → HasTold terms self.new ((bytes ++ (start_code ++ unit.now)) ++ later) told)) }
        // The start code is noted, at its bit of the byte stream.
        ensures codes { (terms : Terms) (bytes : List ℕ) → IsGiven terms self.old bytes → length bytes ≤ input_limit →
            OnOk result (self.new.codes.bits.items ≡ self.old.codes.bits.items ++ 8 * length bytes ∷ []) }
        ensures grows { (terms : Terms) (bytes : List ℕ) → IsGiven terms self.old bytes →
            HasGrown self.old.queue.handed_out self.old.queue.waiting.items self.new.queue.handed_out self.new.queue.waiting.items }
        // What is sent is one unit.
        ensures unit { (terms : Terms) (bytes : List ℕ) → IsGiven terms self.old bytes → OnOk result (IsBody unit.now) }
        ensures no_unit { result ≡ Err NotSent.NoUnit → IsBody unit.now → ⊥ }
        // Memory is asked for only where the list of start codes is full.
        ensures memory { result ≡ Err NotSent.Memory → vec_capacity self.old.codes.bits ≤ vec_len self.old.codes.bits }
        ensures not_sent { (terms : Terms) (bytes : List ℕ) → IsGiven terms self.old bytes → OnErr result (IsGiven terms self.new bytes) }
        ensures kept { OnErr result (self.new.codes.bits.items ≡ self.old.codes.bits.items) }
        ensures again { (answer : Result Summary Stop) → self.old.standing ≡ Fallen answer →
            (result ≡ Ok (Some (sent_answer self.old.codes.bits.items answer))) × (self.new ≡ self.old) }
    {
        if let Standing::Fallen(answer) = &self.standing {
            return Ok(Some(self.codes.sent_answer(*answer)));
        }
        if !is_unit(unit) {
            return Err(NotSent::NoUnit);
        }
        if self.codes.put().is_err() {
            return Err(NotSent::Memory);
        }
        match self.judge_unit(unit) {
            None => Ok(None),
            Some(answer) => Ok(Some(self.codes.sent_answer(answer))),
        }
    }

    /// Decodes the end of the stream: the answer to all that was given.
    pub fn finish(&mut self) -> Result<Summary, Stop>
        ensures told { (terms : Terms) (bytes : List ℕ) → IsGiven terms self.old bytes → HasTold terms self.new bytes result }
        ensures grows { (terms : Terms) (bytes : List ℕ) → IsGiven terms self.old bytes →
            HasGrown self.old.queue.handed_out self.old.queue.waiting.items self.new.queue.handed_out self.new.queue.waiting.items }
        ensures again { (answer : Result Summary Stop) → self.old.standing ≡ Fallen answer →
            (result ≡ sent_answer self.old.codes.bits.items answer) × (self.new ≡ self.old) }
        ensures codes { self.new.codes.bits.items ≡ self.old.codes.bits.items }
    {
        let open = mem::replace(&mut self.standing, Standing::Fallen(Err(Stop::Memory)));
        match open {
            Standing::Fallen(answer) => {
                self.standing = Standing::Fallen(answer);
                return self.codes.sent_answer(answer);
            }
            Standing::Running(session) => {
                self.notes.note_end();
                let answer = conclude_queue(session, &mut self.queue, &mut self.notes);
                self.standing = Standing::Fallen(answer);
                return self.codes.sent_answer(answer);
            }
        }
    }

    /// The next frame in the order of output. None where none waits, or where 2^64 - 1 were taken.
    pub fn take_frame(&mut self) -> Option<ShownFrame>
        ensures first { IfSome result (λ frame. self.old.queue.waiting.items ≡ frame ∷ self.new.queue.waiting.items) }
        ensures counted { IfSome result (λ frame. self.new.queue.handed_out ≡ self.old.queue.handed_out + 1) }
        ensures none { IfNone result ((self.old.queue.waiting.items ≡ []) ⊎ (self.old.queue.handed_out ≡ 2 ^ 64 - 1)) }
        ensures kept { IfNone result ((self.new.queue.waiting.items ≡ self.old.queue.waiting.items)
            × (self.new.queue.handed_out ≡ self.old.queue.handed_out)) }
        ensures given { (terms : Terms) (bytes : List ℕ) → IsGiven terms self.old bytes → IsGiven terms self.new bytes }
        ensures answered { (terms : Terms) (bytes : List ℕ) (answer : Result Summary Stop) → HasAnswered terms self.old bytes answer →
            HasAnswered terms self.new bytes answer }
        ensures codes { self.new.codes.bits.items ≡ self.old.codes.bits.items }
    {
        self.queue.take_frame()
    }

    /// Takes a frame back that was taken. A later frame is made in its memory. Where memory is refused to the list of what is kept, it is freed.
    pub fn give_back(&mut self, frame: ShownFrame)
        ensures waiting { self.new.queue.waiting.items ≡ self.old.queue.waiting.items }
        ensures handed_out { self.new.queue.handed_out ≡ self.old.queue.handed_out }
        // Its vector is kept, as the last one; or the list of those that are kept was full, and stays.
        ensures spare { (self.new.queue.spare.items ≡ self.old.queue.spare.items ++ frame.samples ∷ [])
            ⊎ ((vec_capacity self.old.queue.spare ≤ vec_len self.old.queue.spare) × (self.new.queue.spare.items ≡ self.old.queue.spare.items)) }
        ensures given { (terms : Terms) (bytes : List ℕ) → IsGiven terms self.old bytes → IsGiven terms self.new bytes }
        ensures answered { (terms : Terms) (bytes : List ℕ) (answer : Result Summary Stop) → HasAnswered terms self.old bytes answer →
            HasAnswered terms self.new bytes answer }
        ensures codes { self.new.codes.bits.items ≡ self.old.codes.bits.items }
    {
        self.queue.give_back(frame);
    }

    /// What the sequence parameter set of the slice that was read last says of the stream. None: no slice was read.
    pub fn info(&self) -> Option<StreamInfo>
        ensures { MatchOption self.now.notes.active (result ≡ None) (λ set. IfSome result (IsInfo set)) }
    {
        let set = self.notes.active()?;
        Some(StreamInfo::of(&set))
    }

    /// The object of JSON of the answer (docs/OUTPUT.md), without `file`. None: the stream goes on, or there is no memory for it.
    pub fn object(&self, alloc: Global) -> Option<Page>
        ensures answered { (answer : Result Summary Stop) → self.now.standing ≡ Fallen answer →
            IfSome result (λ page. (more : List ℕ) × (text_on page ≡ verdict_object (sent_answer self.now.codes.bits.items answer) more)) }
        ensures running { (terms : Terms) (bytes : List ℕ) → IsGiven terms self.now bytes → result ≡ None }
    {
        match &self.standing {
            Standing::Fallen(answer) => self.notes.object(alloc, self.codes.sent_answer(*answer)),
            Standing::Running(_) => None,
        }
    }
}
