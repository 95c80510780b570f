//! Values of the command line's arguments: sizes, times, conditions, and what else they request.
use crate::{
    By, Condition, ConnectionId, Expression, ExpressionError, Filter, FollowForm, FollowOptions,
    Listing, Rules, ShownBytes, TimeForm, Way, Words,
};
use capture_programs::packets_arguments::REASSEMBLY_MEMORY;
use captures::Unfit;
use clap::ArgMatches;
use std::alloc::{AllocError, Global};
use thiserror::Error;

const STANDARD_INPUT: &[&str] = &["-"];

/// What the words request.
#[derive(Drop)]
pub struct Requested<'m> {
    /// What is written.
    pub output: Output<'m>,
    /// Of which packets, and what becomes of the others and of reassemblies.
    pub rules: Rules,
    /// The files' names in their order, `-` for standard input. There is one at least.
    pub names: &'m [&'m str],
}

/// Why words request nothing.
#[derive(Debug, Drop, Error)]
pub enum RequestError {
    /// This text is no expression of conditions.
    #[error("invalid value '{text}' for '--only <WHAT>': {reason}")]
    Expression { text: String, reason: String },
    /// This word is no size.
    #[error("invalid value '{word}' for '--reassembly-memory <SIZE>': {error}")]
    Size { word: String, error: SizeError },
    /// This word is no number of bytes that a window may have.
    #[error("invalid value '{word}' for '--window <SIZE>': {error}")]
    Window { word: String, error: SizeError },
    /// This word names no connection.
    #[error("invalid value '{word}' for '<ID>': not HOST:PORT-HOST:PORT, as 10.0.0.1:4000-10.0.0.2:80")]
    Connection { word: String },
    /// Packets with a wrong checksum, where none is verified.
    #[error("the argument '--only bad' cannot be used with '--no-checksums'")]
    Unverified,
    /// There is no memory for the conditions, or for a text that is refused.
    #[error("out of memory")]
    Memory(#[from(alloc)] AllocError),
}

/// Why a word is no size.
#[derive(Clone, Copy, Debug, PartialEq, Eq, Error)]
pub enum SizeError {
    /// It isn't a whole number, alone or before `K`, `M` or `G`.
    #[error("not a number of bytes, or of K, M or G")]
    Form,
    /// It is 2^64 bytes or more.
    #[error("too large")]
    TooLarge,
    /// It is 0, where it has to be more.
    #[error("too small")]
    TooSmall,
}

/// What is written of a capture.
#[derive(Debug, Drop)]
pub enum Output<'m> {
    /// A line for each packet that looks so.
    Show(LineRequest),
    /// A capture of the packets, into the file with this name, `-` for standard output.
    Capture(&'m str),
    /// A JSON object for each packet, with the bytes of its payload or without.
    Json(bool),
    /// What is in it, counted.
    Summary,
    /// Its conversations, counted.
    Flows(Listing),
    /// Both, as a page.
    Report,
    /// What goes over a TCP connection.
    Follow(FollowOptions),
}

impl Output<'_> {
    /// The command that requests it. It has no contract: tests compare the texts.
    pub fn command(&self) -> &'static str {
        match self {
            Output::Show(_) | Output::Capture(_) => "show",
            Output::Json(_) => "json",
            Output::Summary => "summary",
            Output::Flows(_) => "flows",
            Output::Report => "report",
            Output::Follow(_) => "follow ID",
        }
    }
}

/// How lines look.
#[derive(Clone, Copy, Debug, PartialEq, Eq)]
pub struct LineRequest {
    /// Which time they have.
    pub time: TimeForm,
    /// How many columns they have at most, if they are cut.
    pub width: Option<usize>,
    /// When they have colours.
    pub coloring: Coloring,
    /// Whether they have hardware addresses.
    pub link: bool,
    /// Which bytes are below them.
    pub bytes: ShownBytes,
    /// Whether numbers of TCP are relative.
    pub relative: bool,
}

/// When lines have colours.
#[derive(Clone, Copy, Debug, PartialEq, Eq)]
pub enum Coloring {
    /// On a terminal, if `NO_COLOR` isn't set.
    Auto,
    /// On anything.
    Always,
    /// On nothing.
    Never,
}

/// What the words request: without a command what `show` does. It has no contract: tests compare
/// what words request.
pub fn requested_by<'m>(
    alloc: Global,
    matches: &'m ArgMatches,
) -> Result<Requested<'m>, RequestError> {
    let (output, words) = match matches.subcommand() {
        Some(("json", words)) => (Output::Json(words.get_flag("payload")), words),
        Some(("summary", words)) => (Output::Summary, words),
        Some(("flows", words)) => (Output::Flows(listing(words)), words),
        Some(("report", words)) => (Output::Report, words),
        Some(("follow", words)) => (Output::Follow(follow_options(alloc, words)?), words),
        Some((_, words)) => (show(words), words),
        None => (show(matches), matches),
    };
    let checksums = !words.get_flag("no-checksums");
    Ok(Requested {
        output,
        rules: Rules {
            filter: filter_of(alloc, words.get_strs("only").unwrap_or(&[]), checksums)?,
            count: count(words),
            duration: words.get_one::<u32>("duration"),
            unfit: if words.get_flag("skip") {
                Unfit::Skip
            } else {
                Unfit::Refuse
            },
            forget: words.get_one::<u32>("forget"),
            reassembly_memory: reassembly_memory(alloc, words)?,
            checksums,
        },
        names: names(words),
    })
}

// The files, by either of the arguments that name them.
fn names<'m>(words: &'m ArgMatches) -> &'m [&'m str] {
    let argument = if words.contains_id("read") {
        "read"
    } else {
        "FILE"
    };
    words.get_strs(argument).unwrap_or(STANDARD_INPUT)
}

fn show<'m>(words: &'m ArgMatches) -> Output<'m> {
    match words.get_str("write") {
        Some(name) => Output::Capture(name),
        None => Output::Show(LineRequest {
            time: time_form(words),
            width: width(words),
            coloring: when_colored(words),
            link: words.get_flag("link"),
            bytes: shown_bytes(words),
            relative: words.get_flag("relative"),
        }),
    }
}

fn listing(words: &ArgMatches) -> Listing {
    Listing {
        by: match words.get_str("by") {
            Some("packets") => By::Packets,
            Some("first") => By::First,
            Some("duration") => By::Duration,
            _ => By::Bytes,
        },
        top: words.get_one::<u32>("top"),
        json: words.get_flag("json"),
    }
}

fn follow_options(alloc: Global, words: &ArgMatches) -> Result<FollowOptions, RequestError> {
    let word = words.get_str("ID").unwrap_or("");
    let Some(id) = ConnectionId::of(word) else {
        let word = String::from_str(alloc, word)?;
        return Err(RequestError::Connection { word });
    };
    Ok(FollowOptions {
        id,
        direction: match words.get_str("direction") {
            Some("1") => Some(Way::FromFirst),
            Some("2") => Some(Way::FromSecond),
            _ => None,
        },
        form: follow_form(words),
        window: window(alloc, words)?,
    })
}

fn follow_form(words: &ArgMatches) -> FollowForm {
    if words.get_flag("raw") {
        FollowForm::Raw
    } else if words.get_flag("hex") {
        FollowForm::Hex
    } else if words.get_flag("json") {
        FollowForm::Json
    } else {
        FollowForm::Text
    }
}

fn window(alloc: Global, words: &ArgMatches) -> Result<u32, RequestError> {
    let word = words.get_str("window").unwrap_or("1M");
    let error = match size_of(word) {
        Ok(size) => match u32::try_from(size) {
            Ok(0) => SizeError::TooSmall,
            Ok(size) => return Ok(size),
            Err(_) => SizeError::TooLarge,
        },
        Err(error) => error,
    };
    let word = String::from_str(alloc, word)?;
    Err(RequestError::Window { word, error })
}

fn filter_of(alloc: Global, texts: &[&str], checksums: bool) -> Result<Filter, RequestError> {
    let mut filter = Filter::new(alloc);
    for text in texts {
        filter.add_expression(expression_of(alloc, *text, checksums)?)?;
    }
    Ok(filter)
}

fn expression_of(alloc: Global, text: &str, checksums: bool) -> Result<Expression, RequestError> {
    let words = match Words::of(alloc, text) {
        Ok(words) => words,
        Err(error) => return Err(refused(alloc, text, error)),
    };
    if !checksums && words.have(Condition::Bad) {
        return Err(RequestError::Unverified);
    }
    match words.expression(alloc) {
        Ok(expression) => Ok(expression),
        Err(error) => Err(refused(alloc, text, error)),
    }
}

// Why a text is refused that is no expression.
fn refused(alloc: Global, text: &str, error: ExpressionError<'_>) -> RequestError {
    let ExpressionError::Fault(column, fault) = error else {
        return RequestError::Memory(AllocError);
    };
    match (
        String::from_str(alloc, text),
        format!(in alloc; "at {column}: {fault}"),
    ) {
        (Ok(text), Ok(reason)) => RequestError::Expression { text, reason },
        _ => RequestError::Memory(AllocError),
    }
}

fn reassembly_memory(alloc: Global, words: &ArgMatches) -> Result<u64, RequestError> {
    let word = words
        .get_str("reassembly-memory")
        .unwrap_or(REASSEMBLY_MEMORY);
    match size_of(word) {
        Ok(size) => Ok(size),
        Err(error) => {
            let word = String::from_str(alloc, word)?;
            Err(RequestError::Size { word, error })
        }
    }
}

// The bytes of a size: a whole number, or with `K`, `M` or `G` after it, for powers of 1024.
fn size_of(word: &str) -> Result<u64, SizeError> {
    let (number, unit) = match word.as_bytes().last() {
        Some(b'K') => (word.strip_suffix("K"), 1 << 10),
        Some(b'M') => (word.strip_suffix("M"), 1 << 20),
        Some(b'G') => (word.strip_suffix("G"), 1u64 << 30),
        _ => (Some(word), 1),
    };
    let number = number.unwrap_or(word);
    if number.is_empty() || !number.bytes().all(|byte| byte.is_ascii_digit()) {
        return Err(SizeError::Form);
    }
    match number.parse::<u64>() {
        Ok(number) => number.checked_mul(unit).ok_or(SizeError::TooLarge),
        Err(_) => Err(SizeError::TooLarge),
    }
}

fn count(words: &ArgMatches) -> Option<u64> {
    match words.get_one::<u32>("count") {
        Some(packets) => Some(u64::from(packets)),
        None => None,
    }
}

fn time_form(words: &ArgMatches) -> TimeForm {
    if words.get_flag("utc") {
        return TimeForm::Utc;
    }
    match words.get_str("time") {
        Some("delta") => TimeForm::SincePrevious,
        Some("epoch") => TimeForm::Epoch,
        Some("utc") => TimeForm::Utc,
        Some("local") => TimeForm::Local,
        _ => TimeForm::SinceFirst,
    }
}

fn shown_bytes(words: &ArgMatches) -> ShownBytes {
    match words.get_count("bytes") {
        0 => ShownBytes::Nothing,
        1 => ShownBytes::AfterLink,
        _ => ShownBytes::Frame,
    }
}

fn width(words: &ArgMatches) -> Option<usize> {
    match words.get_one::<u32>("width") {
        Some(columns) => Some(columns as usize),
        None => None,
    }
}

fn when_colored(words: &ArgMatches) -> Coloring {
    match words.get_str("color") {
        Some("always") => Coloring::Always,
        Some("never") => Coloring::Never,
        _ => Coloring::Auto,
    }
}
