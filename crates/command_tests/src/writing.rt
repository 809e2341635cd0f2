//! Lines that are written: their canonical bytes, which are refused, and what was written before.

use crate::base::*;
use crate::json::{KIND_ROWS, KINDS, Row as Shown, WORKED_ROWS};
use fast_io::ScriptInput;
use fast_write::{OutputForm, WriteFault, WrittenSummary, write_lines, write_packets};
use line_rows::{ROWS, TEMPLATES, row_of};

/// What is answered of lines: how many there are or which one is refused, and what is said of that.
type Answer = (u64, String);

/// What is answered. (An output keeps what is written, and fails where memory for it is refused.)
fn answered(
    rt: &impl Abort,
    alloc: Global,
    answer: Result<WrittenSummary, WriteFault>,
) -> Tried<Answer> {
    let (line, cause, template, instruction) = match answer {
        Ok(counts) => return Ok((counts.lines, String::new(alloc))),
        Err(WriteFault::Line(line, fault)) => {
            let cause = format!(in alloc; "{}", fault.cause)?;
            (line, cause, fault.template, fault.instruction)
        }
        Err(WriteFault::Message(line, template, fault)) => {
            let cause = format!(in alloc; "{}", fault.cause)?;
            (line, cause, template, fault.instruction)
        }
        Err(WriteFault::Memory | WriteFault::Write) => return Err(AllocError),
        Err(fault) => {
            same(rt, fault, WriteFault::Memory);
            return Err(AllocError);
        }
    };
    let place = format!(in alloc; "line={line} template={template} instruction={instruction}")?;
    Ok((line, format!(in alloc; "refused {cause} {place}\n")?))
}

/// What is written of a text in steps of one size, whose lines say their packets or do not, and what is answered.
fn written(
    rt: &impl Abort,
    on: &Loaded,
    (packets, form): (bool, OutputForm),
    text: &[u8],
    step: usize,
) -> Tried<(Answer, Vec<u8>)> {
    let (alloc, set) = (on.alloc, &on.set);
    let mut out = ScriptOutput::new(alloc, 1_000_000, false, false);
    let reader = &mut Counted::new(ScriptInput::new(text, step.max(1), 0));
    let writer = &mut Counted::new(&mut out);
    let answer = if packets {
        write_packets(alloc, set, form, reader, writer, 100_000)
    } else {
        write_lines(alloc, set, form, reader, writer, 100_000)
    };
    let answer = answered(rt, alloc, answer)?;
    Ok((answer, out.bytes().to_vec(alloc)?))
}

/// The line that `show` writes of a message is written as that message, whatever a read gives.
fn is_written_back(rt: &impl Abort, on: &Loaded, row: &Shown) -> Tried {
    const BYTES: (bool, OutputForm) = (false, OutputForm::Bytes);
    for step in 1..row.line.len() {
        let (answer, bytes) = written(rt, on, BYTES, row.line.as_bytes(), step)?;
        same(rt, answer.1.as_str(), "");
        same(rt, bytes.as_slice(), row.stream);
    }
    Ok(())
}

#[test]
fn lines_that_show_writes(rt: HostRuntime) -> Tried {
    let on = worked(&rt, rt.alloc())?;
    for row in WORKED_ROWS {
        is_written_back(&rt, &on, row)?;
    }
    let on = loaded(&rt, rt.alloc(), KINDS)?;
    for row in KIND_ROWS {
        is_written_back(&rt, &on, row)?;
    }
    Ok(())
}

/// A row's line is answered as it says.
fn is_answered(rt: &impl Abort, on: &Loaded, row: &str) -> Tried {
    let (row, hex) = (row_of(row), (false, OutputForm::Hex));
    let (answer, bytes) = written(rt, on, hex, row.line.as_bytes(), 4096)?;
    same(rt, answer.1.as_str(), row.said);
    same(rt, bytes.as_slice(), row.out.as_bytes());
    Ok(())
}

#[test]
fn lines_and_what_is_answered(rt: HostRuntime) -> Tried {
    let on = loaded(&rt, rt.alloc(), TEMPLATES)?;
    for row in ROWS.split_inclusive('\n') {
        is_answered(&rt, &on, row)?;
    }
    Ok(())
}

/// Lines that say their packets, how many there are or which one is refused, what is said of that, and the digits of what is
/// written.
const PACKETS: &[(&str, u64, &str, &str)] = rows! {
    "", 0, "", "\n";
    "{\"packet\":1,\"id\":9,\"fields\":{}}", 1, "", "82c089\n";
    "{\"packet\":1,\"id\":9,\"fields\":{}}\n{\"id\":9,\"packet\":1,\"fields\":{}}\n\n{\"packet\":3,\"id\":9,\"fields\":{}}\n",
        4, "", "83c0898082c089\n";
    "{\"packet\":2,\"id\":9,\"fields\":{}}\n{\"packet\":1,\"id\":9,\"fields\":{}}\n", 2,
        "refused Line line=2 template=0 instruction=0\n", "82c089\n";
    "{\"packet\":2,\"id\":9,\"fields\":{}}\n{\"id\":9,\"fields\":{}}\n", 2,
        "refused Line line=2 template=0 instruction=0\n", "82c089\n";
    "{\"packet\":0,\"id\":9,\"fields\":{}}\n", 1, "refused Line line=1 template=0 instruction=0\n", "\n";
    "{\"packet\":\"1\",\"id\":9,\"fields\":{}}\n", 1, "refused Line line=1 template=0 instruction=0\n", "\n";
};

#[test]
fn lines_that_say_their_packets(rt: HostRuntime) -> Tried {
    let on = loaded(&rt, rt.alloc(), TEMPLATES)?;
    for (text, line, said, digits) in PACKETS {
        let hex = (true, OutputForm::Hex);
        let (answer, bytes) = written(&rt, &on, hex, text.as_bytes(), 4096)?;
        same(&rt, answer.0, *line);
        same(&rt, answer.1.as_str(), said);
        same(&rt, bytes.as_slice(), digits.as_bytes());
    }
    Ok(())
}

/// A text of three lines that say their packets or do not, and what is written of none of them, of the first, of two and
/// of all.
struct Cut {
    packets: bool,
    text: &'static [u8],
    fronts: &'static [&'static [u8]],
}

const CUTS: &[Cut] = rows! { Cut { packets, text, fronts }:
    false, b"{\"id\":9,\"fields\":{}}\n{\"id\":9,\"fields\":{}}\n{\"id\":9,\"fields\":{}}",
        &[b"", b"\xc0\x89", b"\xc0\x89\x80", b"\xc0\x89\x80\x80"];
    true, b"{\"packet\":1,\"id\":9,\"fields\":{}}\n{\"packet\":1,\"id\":9,\"fields\":{}}\n\
        {\"packet\":2,\"id\":9,\"fields\":{}}",
        &[b"", b"\x82\xc0\x89", b"\x83\xc0\x89\x80", b"\x83\xc0\x89\x80\x82\xc0\x89"];
};

/// How many line feeds there are.
fn line_feeds(text: &[u8]) -> usize {
    let mut count: usize = 0;
    for byte in text {
        if *byte == b'\n' {
            count = count.saturating_add(1);
        }
    }
    count
}

/// The lines before a cut are written. The one that is cut is too where nothing but its line feed is cut off, and else it is
/// refused.
fn is_cut(rt: &impl Abort, on: &Loaded, cut: &Cut, end: usize) -> Tried {
    let front = cut.text.get(..end).unwrap_or(b"");
    let bytes = (cut.packets, OutputForm::Bytes);
    let (answer, bytes) = written(rt, on, bytes, front, 7)?;
    let ended = line_feeds(front);
    let (count, said) = if front.is_empty() || front.ends_with(b"\n") {
        (ended, String::new(on.alloc))
    } else if front.ends_with(b"}}") {
        (ended.saturating_add(1), String::new(on.alloc))
    } else {
        let line = ended.saturating_add(1);
        let said = format!(in on.alloc; "refused Json line={line} template=0 instruction=0\n")?;
        (ended, said)
    };
    same(rt, answer.1.as_str(), said.as_str());
    same(rt, Some(&bytes.as_slice()), cut.fronts.get(count));
    Ok(())
}

#[test]
fn lines_that_are_cut(rt: HostRuntime) -> Tried {
    let on = loaded(&rt, rt.alloc(), TEMPLATES)?;
    for cut in CUTS {
        for end in 0..=cut.text.len() {
            is_cut(&rt, &on, cut, end)?;
        }
    }
    Ok(())
}
