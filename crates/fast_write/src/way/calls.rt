//! The calls of lines on their way.

ghost use Rattle.std.specs.Prelude.{◌≡◌, ◌⊎◌, ◌≤◌, ◌<◌, ◌++◌, ℕ, IfErr, IfOk, List, MatchResult, OnOk, Option, false, length, take};
ghost use Rattle.std.specs.List.{list_all};
ghost use Rattle.std.specs.Io.KnownBytes.{IsAtEnd};
ghost use Rattle.fast_io.specs.Counts.{counted};
ghost use Rattle.fast_spelled.specs.declared.fault.LineCause.TheVariants as line_cause;
ghost use Rattle.fast_spelled.specs.declared.fault.LineFault.{LineFault as SpecFault};
ghost use Rattle.fast_spelled.specs.Spelled.{Spells, is_blank};
ghost use Rattle.fast_stream.specs.Nodes.{content_of};
ghost use Rattle.fast_write.specs.Written.{IsNoLine, IsShort, errors_behind, line_limit};
ghost use Rattle.fast_write.specs.Ways.{ClosesAll, Comes, EndsLine, Finishes, GoesOn, Hands, IsOfLine, IsSameWay, Stands, Stops, TakesLine, TakesPlain, here};
ghost use Rattle.fast_write.specs.declared.fault.WriteFault.TheVariants as refusal;

use crate::fault::{WriteFault, of_line, of_message, of_whole};
use crate::lines::{LINE_LIMIT, is_blank_line, line_end, push_feed};
use crate::way::Way;
use fast_dictionary::Entries;
use fast_io::ByteOutput;
use fast_spelled::{LineCause, Scratch, message_of};
use fast_stream::Message;
use fast_template::TemplateSet;
use std::alloc::{AllocError, Global};

/// From so many bytes on that wait, they are written behind a line.
const MANY: usize = 65_536;

/// One more, but no further than the greatest number.
pub(super) fn one_more(count: u64) -> u64
    ensures { result ≡ counted count }
{
    count.saturating_add(1)
}

/// The message of a line that is not blank, with this number.
fn read_line(
    alloc: Global,
    set: &TemplateSet,
    line: &[u8],
    number: u64,
    scratch: &mut Scratch,
) -> Result<Message, WriteFault>
    requires { list_all is_blank line.now ≡ false }
    ensures { MatchResult result (λ m. Spells set.now line.now (content_of m))
        (λ f. (f ≡ refusal.Memory)
        ⊎ ((fault : SpecFault) × (f ≡ refusal.Line number fault) × IsNoLine set.now line.now fault)) }
{
    let text = match simdutf8::basic::from_utf8(line) {
        Ok(text) => text,
        Err(_) => return Err(of_whole(number, LineCause::Json, 0)),
    };
    match message_of(alloc, set, text, scratch) {
        Ok(message) => Ok(message),
        Err(fault) => Err(of_line(number, fault)),
    }
}

impl<'a, E: Entries> Way<'a, E> {
    /// Takes the line that is open, which is not blank and has this number, as a message of the one stream.
    fn take_plain(&mut self, number: u64) -> Result<(), WriteFault>
        requires { list_all is_blank self.now.begun.items ≡ false }
        ensures { TakesPlain (here self.old) (here self.new) number result }
    {
        let message = match read_line(
            self.alloc,
            self.set,
            &self.begun,
            number,
            &mut self.scratch,
        ) {
            Ok(message) => message,
            Err(fault) => return Err(fault),
        };
        match self.encoder.encode(&message, &mut self.ready) {
            Ok(()) => {}
            Err(fault) => return Err(of_message(number, message.template, fault)),
        }
        self.counts.lines = number;
        self.counts.messages = one_more(self.counts.messages);
        Ok(())
    }

    /// Takes the line that is open.
    fn take_line(&mut self) -> Result<(), WriteFault>
        ensures { TakesLine (here self.old) (here self.new) result }
    {
        let number = one_more(self.counts.lines);
        if is_blank_line(&self.begun) {
            self.counts.lines = number;
            return Ok(());
        }
        if self.numbered {
            return self.take_numbered(number);
        }
        self.take_plain(number)
    }

    /// Writes what waits.
    pub(crate) fn hand_on<W: ByteOutput>(&mut self, writer: &mut W) -> Result<(), WriteFault>
        ensures hands { Hands (here self.old) (here self.new) (W.taken writer.old) (W.taken writer.new) result }
        ensures failed { W.errors writer.new ≡ errors_behind result (W.errors writer.old) }
        ensures flushes { W.flushes writer.new ≡ W.flushes writer.old }
    {
        match self.form.push(writer, &self.ready) {
            Ok(()) => {}
            Err(_) => return Err(WriteFault::Write),
        }
        self.counts.written = self.counts.written.saturating_add(self.ready.len() as u64);
        self.ready.clear();
        Ok(())
    }

    /// Takes the line that is open, and writes what waits where it is much.
    pub(crate) fn end_line<W: ByteOutput>(&mut self, writer: &mut W) -> Result<(), WriteFault>
        ensures ends { (before : Option (List ℕ)) (lines : List (List ℕ))
            → Stands (here self.old) (here self.old).entries before (W.taken writer.old) lines
            → IsShort (here self.old).begun
            → EndsLine (here self.old) (here self.new) before (W.taken writer.new) lines result }
        ensures of_line { IfErr result IsOfLine }
        ensures same { IsSameWay (here self.old) (here self.new) }
        ensures failed { W.errors writer.new ≡ errors_behind result (W.errors writer.old) }
        ensures flushes { W.flushes writer.new ≡ W.flushes writer.old }
    {
        match self.take_line() {
            Ok(()) => {}
            Err(fault) => return Err(fault),
        }
        self.begun.clear();
        if self.ready.len() < MANY {
            return Ok(());
        }
        self.hand_on(writer)
    }

    /// Keeps what comes next of a line.
    fn keep(&mut self, bytes: &[u8]) -> Result<(), WriteFault>
        ensures kept { MatchResult result
            (λ _. (here self.new ≡ record (here self.old) { begun = (here self.old).begun ++ bytes.now })
            × (length ((here self.old).begun ++ bytes.now) ≤ line_limit))
            (λ f. (here self.new ≡ here self.old)
            × ((f ≡ refusal.Memory) ⊎ ((fault : SpecFault)
            × (f ≡ refusal.Line (counted (here self.old).counts.lines) fault) × (fault.cause ≡ line_cause.Limit)
            × (line_limit < length ((here self.old).begun ++ bytes.now))))) }
    {
        if self.begun.len().saturating_add(bytes.len()) > LINE_LIMIT {
            return Err(of_whole(one_more(self.counts.lines), LineCause::Limit, LINE_LIMIT));
        }
        match self.begun.extend_from_slice(bytes) {
            Ok(()) => Ok(()),
            Err(AllocError) => Err(WriteFault::Memory),
        }
    }

    /// Takes bytes that come next up to the first line feed, and answers how many.
    fn take_piece<W: ByteOutput>(
        &mut self,
        bytes: &[u8],
        writer: &mut W,
    ) -> Result<usize, WriteFault>
        requires { 0 < length bytes.now }
        ensures comes { (left before : Option (List ℕ)) (input : List ℕ)
            → GoesOn (here self.old) before (W.taken writer.old) input
            → MatchResult result
            (λ count. GoesOn (here self.new) before (W.taken writer.new) (input ++ take count bytes.now))
            (λ f. Stops (here self.new) left before (W.taken writer.new) (input ++ bytes.now) f) }
        ensures some { IfOk result (λ count. (0 < count) × (count ≤ length bytes.now)) }
        ensures of_line { IfErr result IsOfLine }
        ensures same { IsSameWay (here self.old) (here self.new) }
        ensures failed { W.errors writer.new ≡ errors_behind result (W.errors writer.old) }
        ensures flushes { W.flushes writer.new ≡ W.flushes writer.old }
    {
        let end = line_end(bytes);
        match self.keep(&bytes[..end]) {
            Ok(()) => {}
            Err(fault) => return Err(fault),
        }
        if end == bytes.len() {
            return Ok(end);
        }
        match push_feed(&mut self.begun) {
            Ok(()) => {}
            Err(AllocError) => return Err(WriteFault::Memory),
        }
        match self.end_line(writer) {
            Ok(()) => Ok(end + 1),
            Err(fault) => Err(fault),
        }
    }

    /// Takes bytes that come next.
    pub(crate) fn take_bytes<W: ByteOutput>(
        &mut self,
        bytes: &[u8],
        writer: &mut W,
    ) -> Result<(), WriteFault>
        ensures comes { (left before : Option (List ℕ)) (input : List ℕ)
            → GoesOn (here self.old) before (W.taken writer.old) input
            → Comes (here self.new) left before (W.taken writer.new) (input ++ bytes.now) result }
        ensures of_line { IfErr result IsOfLine }
        ensures same { IsSameWay (here self.old) (here self.new) }
        ensures failed { W.errors writer.new ≡ errors_behind result (W.errors writer.old) }
        ensures flushes { W.flushes writer.new ≡ W.flushes writer.old }
    {
        let mut at = 0;
        while at < bytes.len() {
            match self.take_piece(&bytes[at..], writer) {
                Ok(count) => at += count,
                Err(fault) => return Err(fault),
            }
        }
        Ok(())
    }

    /// Takes the line that is open at the end of the input, if one is.
    pub(crate) fn end<W: ByteOutput>(&mut self, writer: &mut W) -> Result<(), WriteFault>
        ensures finishes { (left before : Option (List ℕ)) (input : List ℕ) → IsAtEnd left
            → GoesOn (here self.old) before (W.taken writer.old) input
            → Finishes (here self.new) left before (W.taken writer.new) input result }
        ensures of_line { IfErr result IsOfLine }
        ensures same { IsSameWay (here self.old) (here self.new) }
        ensures failed { W.errors writer.new ≡ errors_behind result (W.errors writer.old) }
        ensures flushes { W.flushes writer.new ≡ W.flushes writer.old }
    {
        if self.begun.is_empty() {
            return Ok(());
        }
        self.end_line(writer)
    }

    /// Writes what waits, with the packet that is open and what stands behind it, and flushes the writer.
    pub(crate) fn close<W: ByteOutput>(&mut self, writer: &mut W) -> Result<(), WriteFault>
        ensures closes { ClosesAll (here self.old) (here self.new) (W.taken writer.old) (W.taken writer.new) result }
        ensures failed { W.errors writer.new ≡ errors_behind result (W.errors writer.old) }
        ensures flushed { MatchResult result (λ _. W.flushes writer.new ≡ counted (W.flushes writer.old))
            (λ f. f ≡ refusal.Memory → W.flushes writer.new ≡ W.flushes writer.old) }
    {
        match self.close_packet() {
            Ok(()) => {}
            Err(AllocError) => return Err(WriteFault::Memory),
        }
        match self.hand_on(writer) {
            Ok(()) => {}
            Err(fault) => return Err(fault),
        }
        match self.form.close(writer) {
            Ok(()) => Ok(()),
            Err(_) => Err(WriteFault::Write),
        }
    }
}
