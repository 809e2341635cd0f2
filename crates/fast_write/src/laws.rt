//! Laws of lines that are written.

ghost use Rattle.fast_write.specs.Laws.{WritesWhatIsShown};
ghost use Rattle.fast_write.specs.PacketLaws.{WritesShownPackets, WritesShownRecording};

use fast_canon::laws::one_reading;
use fast_packets::laws as recordings;
use fast_spelled::{
    lines_are_text, lines_spell_messages, names_are_text, numbered_lines_spell_messages,
    numbered_lines_spell_their_messages,
};
use fast_template::TemplateSet;

/// What `show` writes in JSON of a stream, written, is what `canon` writes of that stream, in any mode, where no line has
/// more than 16,777,216 bytes. None of the lines is refused.
///
/// It looks at the names of the set, and does nothing else.
pub fn shown_is_written(set: &TemplateSet)
    ensures { WritesWhatIsShown set.now }
{
    names_are_text(set);
    set.slots();
    lines_are_text();
    lines_spell_messages();
    one_reading();
}

/// The lines of packets, each with its packet's number, from 1 on, are written as the packets' canonical recording, where no
/// line has more than 16,777,216 bytes and there are fewer than 2^64 packets. None of the lines is refused.
///
/// It looks at the names of the set, and does nothing else.
pub fn shown_packets_are_written(set: &TemplateSet)
    ensures { WritesShownPackets set.now }
{
    names_are_text(set);
    set.slots();
    lines_are_text();
    numbered_lines_spell_messages();
    numbered_lines_spell_their_messages();
}

/// What `show` writes in JSON of a recording, written, is what `canon` writes of that recording, where no packet is refused and
/// no line has more than 16,777,216 bytes. None of the lines is refused.
///
/// It looks at the names of the set, and does nothing else.
pub fn shown_recording_is_written(set: &TemplateSet)
    ensures { WritesShownRecording set.now }
{
    shown_packets_are_written(set);
    set.slots();
    recordings::one_reading();
    recordings::outcomes_are_one();
}
