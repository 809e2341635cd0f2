//! What a command line asks for.

ghost use Rattle.std.specs.Prelude.{◌≡◌, ◌≢◌, None, Some, IfErr, IfOk, codes, false, map, option_and_then, option_map};
ghost use Rattle.clap.specs.Words.{app_of, first_of, found_of, one_of, rows_of, rule_of};
ghost use Rattle.fast_request.specs.CommandLine.{AsksFor, Finds, FindsFlags, IsFlag, asked_by, bare_app, command_named, command_rule, file_named, flag_rule, framing_by as framing_by_lem, input_rule, is_json, level_by as level_by_lem, line_among, over_lines as over_lines_lem, over_packets as over_packets_lem, over_stream as over_stream_lem, task_named, templates_rule, with_files_lem, with_flags_lem, with_ways_lem};

use clap::error::ErrorKind;
use clap::{Arg, ArgAction, ArgMatches};
use fast_command::{Command, Form, Framing, Level, Mode, VERSION};
use fast_recording::PacketMode;
use std::alloc::{AllocError, Global};

/// What is done with an input.
#[derive(Clone, Copy, Debug, PartialEq, Eq)]
pub enum Task {
    /// A command over a stream, which is read so.
    Stream { command: Command, mode: Mode },
    /// A command over a recording of packets, which is read so.
    Recording { command: Command, mode: PacketMode },
    /// Lines of messages are written as canonical bytes, or lines that say their packets as a canonical recording.
    Write { packets: bool },
}

/// What a command line asks for.
#[derive(Clone, Copy)]
pub struct Request<'a> {
    /// What is done with the input.
    pub task: Task,
    /// The name of the file with the templates; without one they come from the standard input.
    pub templates: Option<&'a str>,
    /// Whether the input is hex text, but for lines, and with it what `canon` and `write` write.
    pub hex: bool,
    /// How `show` writes a message.
    pub form: Form,
    /// Whether a refusal is explained.
    pub explain: bool,
    /// The name of the file with the stream; without one it is the standard input.
    pub input: Option<&'a str>,
}

/// The flags that say how an input is read.
#[derive(Clone, Copy)]
pub(crate) struct Flags {
    pub(crate) strict: bool,
    pub(crate) blocks: bool,
    pub(crate) packets: bool,
    pub(crate) keep_going: bool,
}

/// What the help says behind the list of words.
const MORE: &str = "\
Commands:
  show   Write a line for each message, as `16 First A=5 B=6`
  check  Write how many messages and bytes there are, and how many canonical bytes
  canon  Write the canonical bytes: each message in the spelling that comes first
  write  Read lines of messages, as show --json writes them, and write their canonical bytes

Exit status:
  0  done
  1  the stream, a packet or a line is refused: standard error has the cause and the place
  2  the command line, the templates or the hex text is refused
  3  a file, a read, a write or memory failed

Example:
  echo '{\"templates\":[{\"name\":\"Tick\",\"id\":1,\"instructions\":[
    {\"kind\":\"uInt32\",\"name\":\"Price\",\"operator\":\"copy\"}]}]}' > tick.json
  echo e0 81 85 80 | fastcat show --templates tick.json --hex";

/// What the help says of each flag.
const HEX: &str = "Read hex text (write reads lines), and write canonical bytes as hex text";

const STRICT: &str = "Refuse overlong entities, and map bits that no instruction asked for";

const BLOCKS: &str = "Read a stream of blocks: a size, and as many bytes of whole messages";

const PACKETS: &str =
    "Read a recording: packets, each a size and as many bytes, a stream of its own";

const KEEP_GOING: &str =
    "With --packets, tell of a refused packet on standard error and read the next";

const JSON: &str = "Show each message as a JSON text";

const EXPLAIN: &str = "Say of a refusal what it means, where it is and what to do";

/// The word for the command, which has to be there.
fn command_word<'a>(alloc: Global) -> Arg<'a>
    ensures rule { (among : _) × (rule_of result ≡ command_rule among) }
    ensures local { result.global ≡ false }
{
    Arg::new(alloc, "command")
        .value_name("COMMAND")
        .required(true)
        .value_parser(["show", "check", "canon", "write"].as_slice())
        .help("What to do with the stream, or the lines")
}

/// The word for the file of the stream.
fn input_word<'a>(alloc: Global) -> Arg<'a>
    ensures rule { rule_of result ≡ input_rule }
    ensures local { result.global ≡ false }
{
    Arg::new(alloc, "input")
        .value_name("FILE")
        .help("The stream; - or no name is standard input")
}

/// The word for the file of the templates, which has to be there.
fn templates_word<'a>(alloc: Global) -> Arg<'a>
    ensures rule { rule_of result ≡ templates_rule }
    ensures local { result.global ≡ false }
{
    Arg::new(alloc, "templates")
        .long("templates")
        .value_name("FILE")
        .required(true)
        .help("The templates of the stream, a JSON text; - is standard input")
}

/// A flag: a word that is there or is not.
fn flag<'a>(alloc: Global, name: &'a str, help: &'a str) -> Arg<'a>
    ensures rule { rule_of result ≡ flag_rule name.now }
    ensures local { result.global ≡ false }
{
    Arg::new(alloc, name)
        .long(name)
        .action(ArgAction::SetTrue)
        .help(help)
}

/// The program without its words.
fn bare_line<'a>(alloc: Global) -> clap::Command<'a>
    ensures { app_of result ≡ bare_app }
{
    clap::Command::new(alloc, "fastcat")
        .version(VERSION)
        .about("Reads, checks and canonicalises FAST 1.1 streams")
        .after_help(MORE)
}

/// Adds the command and the files.
fn with_files<'a>(alloc: Global, line: clap::Command<'a>) -> Result<clap::Command<'a>, AllocError>
    ensures { IfOk result (λ whole. (among : _)
        × (app_of whole ≡ with_files_lem among (app_of line.entry))) }
{
    line.arg(command_word(alloc))?
        .arg(input_word(alloc))?
        .arg(templates_word(alloc))
}

/// Adds the flags that say how an input is read.
fn with_ways<'a>(alloc: Global, line: clap::Command<'a>) -> Result<clap::Command<'a>, AllocError>
    ensures { IfOk result (λ whole. app_of whole ≡ with_ways_lem (app_of line.entry)) }
{
    line.arg(flag(alloc, "hex", HEX))?
        .arg(flag(alloc, "strict", STRICT))?
        .arg(flag(alloc, "blocks", BLOCKS))?
        .arg(flag(alloc, "packets", PACKETS))?
        .arg(flag(alloc, "keep-going", KEEP_GOING))
}

/// Adds the flags.
fn with_flags<'a>(alloc: Global, line: clap::Command<'a>) -> Result<clap::Command<'a>, AllocError>
    ensures { IfOk result (λ whole. app_of whole ≡ with_flags_lem (app_of line.entry)) }
{
    with_ways(alloc, line)?
        .arg(flag(alloc, "json", JSON))?
        .arg(flag(alloc, "explain", EXPLAIN))
}

/// The words that a command line may have.
fn line<'a>(alloc: Global) -> Result<clap::Command<'a>, AllocError>
    ensures { IfOk result (λ line. (among : _) × (app_of line ≡ line_among among)) }
{
    let files = with_files(alloc, bare_line(alloc))?;
    with_flags(alloc, files)
}

/// The command of a word.
fn command_of(word: &str) -> Option<Command>
    ensures { result ≡ command_named word.now }
{
    match word {
        "show" => Some(Command::Show),
        "check" => Some(Command::Check),
        "canon" => Some(Command::Canon),
        _ => None,
    }
}

/// The level that a flag asks for.
fn level_by(strict: bool) -> Level
    ensures { result ≡ level_by_lem strict }
{
    if strict { Level::Strict } else { Level::Usual }
}

/// The framing that a flag asks for.
fn framing_by(blocks: bool) -> Framing
    ensures { result ≡ framing_by_lem blocks }
{
    if blocks {
        Framing::Blocks
    } else {
        Framing::Plain
    }
}

/// What a command over a stream is asked for by the flags.
fn over_stream(command: Command, flags: Flags) -> Result<Task, Unasked>
    ensures asked { IfOk result (λ t. over_stream_lem command flags ≡ Some t) }
    ensures unasked { IfErr result (λ _. over_stream_lem command flags ≡ None) }
{
    if flags.keep_going {
        return Err(Unasked::KeepGoing);
    }
    Ok(Task::Stream {
        command,
        mode: Mode {
            level: level_by(flags.strict),
            framing: framing_by(flags.blocks),
        },
    })
}

/// What a command over a recording is asked for by the flags.
fn over_packets(command: Command, flags: Flags) -> Result<Task, Unasked>
    ensures asked { IfOk result (λ t. over_packets_lem command flags ≡ Some t) }
    ensures unasked { IfErr result (λ _. over_packets_lem command flags ≡ None) }
{
    if flags.blocks {
        return Err(Unasked::PacketsOfBlocks);
    }
    if flags.keep_going && command == Command::Canon {
        return Err(Unasked::KeepGoing);
    }
    Ok(Task::Recording {
        command,
        mode: PacketMode {
            level: level_by(flags.strict),
            keep_going: flags.keep_going,
        },
    })
}

/// What is asked for by the flags where lines are to be written.
fn over_lines(flags: Flags) -> Result<Task, Unasked>
    ensures asked { IfOk result (λ t. over_lines_lem flags ≡ Some t) }
    ensures unasked { IfErr result (λ _. over_lines_lem flags ≡ None) }
{
    if flags.keep_going {
        return Err(Unasked::KeepGoing);
    }
    Ok(Task::Write {
        packets: flags.packets,
    })
}

/// What a word and the flags ask for.
fn task_of(word: &str, flags: Flags) -> Result<Task, Unasked>
    ensures asked { IfOk result (λ t. task_named word.now flags ≡ Some t) }
    ensures unasked { IfErr result (λ _. task_named word.now flags ≡ None) }
{
    if word == "write" {
        return over_lines(flags);
    }
    match command_of(word) {
        None => Err(Unasked::Missing),
        Some(command) if flags.packets => over_packets(command, flags),
        Some(command) => over_stream(command, flags),
    }
}

/// The name of a file that a word gives; none where the word is that of the standard input.
fn file_of(word: &str) -> Option<&str>
    ensures { option_map (λ w. w.now) result ≡ file_named word.now }
{
    if word == "-" { None } else { Some(word) }
}

/// The first value of a word that a parser found.
fn word_of<'a>(matches: &ArgMatches<'a>, id: &str) -> Option<&'a str>
    ensures { option_map (λ w. w.now) result ≡ first_of id.now (rows_of (found_of matches.now)) }
{
    matches.get_str(id)
}

/// The name of the stream's file that a parser found; none where it is the standard input.
fn input_of<'a>(matches: &ArgMatches<'a>) -> Option<&'a str>
    ensures { option_map (λ w. w.now) result
        ≡ option_and_then file_named (first_of (codes "input") (rows_of (found_of matches.now))) }
{
    match word_of(matches, "input") {
        Some(word) => file_of(word),
        None => None,
    }
}

/// Whether a parser found a flag.
fn is_set(matches: &ArgMatches<'_>, id: &str) -> bool
    ensures { IsFlag (one_of id.now (rows_of (found_of matches.now))) result }
{
    matches.get_flag(id)
}

/// The flags that a parser found of how an input is read.
fn flags_of(matches: &ArgMatches<'_>) -> Flags
    ensures { FindsFlags (rows_of (found_of matches.now)) result }
{
    Flags {
        strict: is_set(matches, "strict"),
        blocks: is_set(matches, "blocks"),
        packets: is_set(matches, "packets"),
        keep_going: is_set(matches, "keep-going"),
    }
}

/// How `show` writes a message, by the flag.
fn form_by(json: bool) -> Form
    ensures { is_json result ≡ json }
{
    if json { Form::Json } else { Form::Text }
}

/// How a parser found that `show` writes a message.
fn form_of(matches: &ArgMatches<'_>) -> Form
    ensures { IsFlag (one_of (codes "json") (rows_of (found_of matches.now))) (is_json result) }
{
    form_by(is_set(matches, "json"))
}

/// Why a command line that the parser lets through asks for nothing.
#[derive(Clone, Copy)]
enum Unasked {
    /// A word is not there that has to be. (The parser lets no such line through.)
    Missing,
    /// The standard input is to be the templates and the stream.
    InputTwice,
    /// Packets are to have blocks.
    PacketsOfBlocks,
    /// It is to go on behind a refused packet where there are no packets, or none may be refused.
    KeepGoing,
}

/// Whether the standard input is to be the templates and the stream.
fn is_read_twice(templates: Option<&str>, input: Option<&str>) -> bool
    ensures { result ≡ false → option_map (λ t. t.now) templates.entry ≡ None
        → option_map (λ i. i.now) input.entry ≢ None }
{
    match (templates, input) {
        (None, None) => true,
        (Some(_), _) | (None, Some(_)) => false,
    }
}

/// What is asked for by what a parser found.
fn request_of<'a>(matches: &ArgMatches<'a>) -> Result<Request<'a>, Unasked>
    ensures { IfOk result (λ r. Finds (rows_of (found_of matches.now)) (asked_by r)) }
{
    let Some(name) = word_of(matches, "command") else {
        return Err(Unasked::Missing);
    };
    let task = task_of(name, flags_of(matches))?;
    let Some(word) = word_of(matches, "templates") else {
        return Err(Unasked::Missing);
    };
    let templates = file_of(word);
    let input = input_of(matches);
    if is_read_twice(templates, input) {
        return Err(Unasked::InputTwice);
    }
    Ok(Request {
        task,
        templates,
        hex: is_set(matches, "hex"),
        form: form_of(matches),
        explain: is_set(matches, "explain"),
        input,
    })
}

/// Reads a command line, of which the first word is the program's name.
pub fn parse_words<'a>(alloc: Global, words: &'a [&'a str]) -> Result<Request<'a>, clap::Error>
    ensures { IfOk result (λ r. AsksFor (map (λ w. w.now) words.now) (asked_by r)) }
{
    let mut line = line(alloc)?;
    let matches = line.try_get_matches_from_mut(words)?;
    match request_of(&matches) {
        Ok(request) => Ok(request),
        Err(Unasked::Missing) => Err(line.error(
            ErrorKind::MissingRequiredArgument,
            "COMMAND and --templates are required",
        )?),
        Err(Unasked::InputTwice) => Err(line.error(
            ErrorKind::ArgumentConflict,
            "standard input is the templates or the stream, not both: give one of them a FILE",
        )?),
        Err(Unasked::PacketsOfBlocks) => Err(line.error(
            ErrorKind::ArgumentConflict,
            "--packets cannot be used with --blocks: a packet is a stream without blocks",
        )?),
        Err(Unasked::KeepGoing) => Err(line.error(
            ErrorKind::ArgumentConflict,
            "--keep-going is for show and check with --packets",
        )?),
    }
}
