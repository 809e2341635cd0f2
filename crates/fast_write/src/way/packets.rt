//! Lines that say their packets.

ghost use Rattle.std.specs.Prelude.{◌≡◌, ◌⊎◌, ◌≤◌, ◌<◌, ◌++◌, ℕ, List, MatchResult, OnErr, OnOk, Some, [], false, length};
ghost use Rattle.std.specs.List.{list_all};
ghost use Rattle.fast_dictionary.specs.Dictionary.{Dictionary};
ghost use Rattle.fast_wire.specs.declared.level.Level.TheVariants.{Usual};
ghost use Rattle.fast_template.specs.TemplateSets.{templates_in};
ghost use Rattle.fast_stream.specs.Nodes.{content_of};
ghost use Rattle.fast_stream.specs.Streams.{MessageForm};
ghost use Rattle.fast_writer.specs.Canonical.{CanonMessage};
ghost use Rattle.fast_nodes.specs.FirstRefusal.{first_refusal, refused};
ghost use Rattle.fast_nodes.specs.declared.fault.EncodeCause.TheVariants as encode_cause;
ghost use Rattle.fast_packets.specs.Recordings.{packet_limit};
ghost use Rattle.fast_spelled.specs.Numbered.{SpellsIn};
ghost use Rattle.fast_spelled.specs.Spelled.{is_blank};
ghost use Rattle.fast_spelled.specs.declared.fault.LineCause.TheVariants as line_cause;
ghost use Rattle.fast_spelled.specs.declared.fault.LineFault.{LineFault as SpecFault};
ghost use Rattle.fast_write.specs.Ways.{Closes, EndsPacket, IsUnreadIn, TakesIn, Waits, entries_at, here, packet_at};
ghost use Rattle.fast_write.specs.declared.fault.WriteFault.TheVariants as refusal;

use crate::fault::{WriteFault, of_line, of_message, of_whole};
use crate::way::Way;
use crate::way::calls::one_more;
use fast_dictionary::Entries;
use fast_encoder::EncodeFault;
use fast_spelled::{LineCause, Scratch, numbered_message_of};
use fast_stream::Message;
use fast_template::TemplateSet;
use fast_wire::write_unsigned;
use std::alloc::{AllocError, Global};
use std::mem;

/// The most canonical bytes of a packet.
const PACKET_LIMIT: usize = 65_535;

/// The message of a line that is not blank, with this number, and the number of its packet.
fn read_numbered(
    alloc: Global,
    set: &TemplateSet,
    line: &[u8],
    number: u64,
    scratch: &mut Scratch,
) -> Result<(u64, Message), WriteFault>
    ensures { MatchResult result (λ x. SpellsIn set.now line.now x.0 (content_of x.1))
        (λ f. (f ≡ refusal.Memory)
        ⊎ ((fault : SpecFault) × (f ≡ refusal.Line number fault) × IsUnreadIn set.now line.now fault)) }
{
    let text = match simdutf8::basic::from_utf8(line) {
        Ok(text) => text,
        Err(_) => return Err(of_whole(number, LineCause::Json, 0)),
    };
    match numbered_message_of(alloc, set, text, scratch) {
        Ok(numbered) => Ok(numbered),
        Err(fault) => Err(of_line(number, fault)),
    }
}

impl<'a, E: Entries> Way<'a, E> {
    /// Makes the canonical bytes of a message of this packet anew.
    fn encode_in(&mut self, packet: u64, message: &Message) -> Result<(), EncodeFault>
        ensures encoded { MatchResult result
            (λ _. CanonMessage (templates_in self.old.set.now) (entries_at (here self.old) packet)
            self.new.fresh.items (content_of message.now) (here self.new).entries)
            (λ f. ((f ≡ refused encode_cause.Memory)
            ⊎ (first_refusal (templates_in self.old.set.now) (entries_at (here self.old) packet)
            (content_of message.now) ≡ Some f))
            × ((f ≡ refused encode_cause.Memory)
            ⊎ ((bytes : List ℕ) (after : Dictionary) → MessageForm Usual (templates_in self.old.set.now)
            (entries_at (here self.old) packet) bytes (content_of message.now) after → ⊥))) }
        ensures still { here self.new ≡ record (here self.old) { entries = (here self.new).entries } }
    {
        self.fresh.clear();
        if packet == self.number {
            return self.encoder.encode(message, &mut self.fresh);
        }
        self.encoder.reset();
        self.encoder.encode(message, &mut self.fresh)
    }

    /// Ends the packet that is open: its bytes wait, behind their size.
    pub(super) fn close_packet(&mut self) -> Result<(), AllocError>
        ensures ends { OnOk result (EndsPacket (here self.old) (here self.new)) }
        ensures unchanged { OnErr result ((here self.new ≡ here self.old) × ((here self.old).packet ≡ [] → ⊥)) }
        ensures fresh { self.new.fresh ≡ self.old.fresh }
    {
        if self.packet.is_empty() {
            return Ok(());
        }
        let before = self.ready.len();
        match write_unsigned(self.packet.len() as u128, &mut self.ready) {
            Ok(()) => {}
            Err(_) => return Err(AllocError),
        }
        match self.ready.extend_from_slice(&self.packet) {
            Ok(()) => {}
            Err(refused) => {
                self.ready.truncate(before);
                return Err(refused);
            }
        }
        self.packet.clear();
        Ok(())
    }

    /// Puts the message that was made behind those of the packet that is open.
    fn extend_packet(&mut self, number: u64) -> Result<(), WriteFault>
        ensures kept { MatchResult result
            (λ _. (length ((here self.old).packet ++ self.old.fresh.items) ≤ packet_limit)
            × (here self.new ≡ record (here self.old) { packet = (here self.old).packet ++ self.old.fresh.items }))
            (λ f. (here self.new ≡ here self.old) × ((f ≡ refusal.Memory)
            ⊎ ((fault : SpecFault) × (f ≡ refusal.Line number fault) × (fault.cause ≡ line_cause.Limit)
            × (packet_limit < length ((here self.old).packet ++ self.old.fresh.items))))) }
    {
        if self.packet.len().saturating_add(self.fresh.len()) > PACKET_LIMIT {
            return Err(of_whole(number, LineCause::Limit, 0));
        }
        match self.packet.extend_from_slice(&self.fresh) {
            Ok(()) => Ok(()),
            Err(AllocError) => Err(WriteFault::Memory),
        }
    }

    /// Begins a packet with the message that was made.
    fn begin_packet(&mut self, packet: u64, number: u64) -> Result<(), WriteFault>
        ensures kept { MatchResult result
            (λ _. (length self.old.fresh.items ≤ packet_limit) × (bytes : List ℕ) × Closes (here self.old).packet bytes
            × (here self.new ≡ record (here self.old) {
              ready = (here self.old).ready ++ bytes;
              number = packet;
              packet = self.old.fresh.items;
            }))
            (λ f. (here self.new ≡ here self.old) × ((f ≡ refusal.Memory)
            ⊎ ((fault : SpecFault) × (f ≡ refusal.Line number fault) × (fault.cause ≡ line_cause.Limit)
            × (packet_limit < length self.old.fresh.items)))) }
    {
        if self.fresh.len() > PACKET_LIMIT {
            return Err(of_whole(number, LineCause::Limit, 0));
        }
        match self.close_packet() {
            Ok(()) => {}
            Err(AllocError) => return Err(WriteFault::Memory),
        }
        mem::swap(&mut self.packet, &mut self.fresh);
        self.number = packet;
        Ok(())
    }

    /// Keeps the message that was made, which is of this packet.
    fn keep_message(&mut self, packet: u64, number: u64) -> Result<(), WriteFault>
        ensures kept { MatchResult result
            (λ _. (ready : List ℕ) × Waits (here self.old) packet ready
            × (length (packet_at (here self.old) packet ++ self.old.fresh.items) ≤ packet_limit)
            × (here self.new ≡ record (here self.old) {
              ready = ready;
              number = packet;
              packet = packet_at (here self.old) packet ++ self.old.fresh.items;
            }))
            (λ f. (here self.new ≡ here self.old) × ((f ≡ refusal.Memory)
            ⊎ ((fault : SpecFault) × (f ≡ refusal.Line number fault) × (fault.cause ≡ line_cause.Limit)
            × (packet_limit < length (packet_at (here self.old) packet ++ self.old.fresh.items))))) }
    {
        if packet == self.number {
            return self.extend_packet(number);
        }
        self.begin_packet(packet, number)
    }

    /// Takes the line that is open, which is not blank and has this number.
    pub(super) fn take_numbered(&mut self, number: u64) -> Result<(), WriteFault>
        requires { list_all is_blank self.now.begun.items ≡ false }
        ensures { TakesIn (here self.old) (here self.new) number result }
    {
        let (packet, message) = match read_numbered(
            self.alloc,
            self.set,
            &self.begun,
            number,
            &mut self.scratch,
        ) {
            Ok(numbered) => numbered,
            Err(fault) => return Err(fault),
        };
        if packet < self.number {
            return Err(of_whole(number, LineCause::Line, 0));
        }
        match self.encode_in(packet, &message) {
            Ok(()) => {}
            Err(fault) => return Err(of_message(number, message.template, fault)),
        }
        match self.keep_message(packet, number) {
            Ok(()) => {}
            Err(fault) => return Err(fault),
        }
        self.counts.lines = number;
        self.counts.messages = one_more(self.counts.messages);
        Ok(())
    }
}
