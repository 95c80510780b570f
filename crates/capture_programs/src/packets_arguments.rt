//! The command line of the program `packets`.
use crate::arguments::{file, flag, number, program, with_command};
use clap::{Arg, ArgAction, Command};
use std::alloc::{AllocError, Global};

/// The program's name, as it is installed.
pub const PROGRAM: &str = "packets";

/// The greatest memory of incomplete messages, as a word, where none is given.
pub const REASSEMBLY_MEMORY: &str = "64M";

const CONDITIONS: &str = "\
Only packets that meet WHAT, in upper or lower case. Given several times, a packet has to meet all.
WHAT is one of these, or some of them joined by not, and, or and parentheses. The word not binds
tighter than and, and and tighter than or; !, && and || mean the same:
  eth, vlan, macsec, arp, ip4, ip6  with such a header; eth was captured as an Ethernet frame
  icmp, icmp6, udp, tcp, sctp ..    of this IP protocol, by the keyword in IANA's registry
  0 to 255                          of this IP protocol, by its number
  bad                               whose checksum is wrong, or that of the message they complete
  refused                           that break a format, or fragments that are refused
  fragments                         that are fragments of an IP datagram
  cut                               of which fewer bytes were captured than were on the wire
  host=ADDRESS                      from or to this address, of IPv4 or IPv6
  net=NETWORK                       from or to this network, as 10.0.0.0/8 or 2001:db8::/32
  src=FROM, dst=TO                  from this address or network, or to it
  port=N                            from or to this port of TCP, UDP or SCTP
  syn, fin, rst                     whose TCP segment has this flag
  ndp, mld                          whose ICMPv6 message is of neighbor or listener discovery
  vlan=N                            with a VLAN tag of this identifier
  len=N                             with so many bytes on the wire
  frame=N                           with this number in the capture
N is a number, or a range with both ends, as 1000..2000. With port, vlan, len and frame, >= and <=
mean at least and at most. A space may replace =";

const EXAMPLES: &str = "\
Examples:
  packets x.pcap                                    a line for each packet
  packets -n -c 10 --only udp -r x.pcap             those over UDP, of the first ten
  packets summary x.pcap                            what is in it, counted";

const EXAMPLES_OF_SHOW: &str = "\
Examples:
  packets show --time delta x.pcap                  with the time since the packet before
  packets show -w y.pcap --only port=53 x.pcap      a capture of what goes to or from name servers
  tcpdump -U -w - | packets show                    packets as they come";

const EXAMPLES_OF_JSON: &str = "\
Examples:
  packets json x.pcap | jq .net                     the IP header of each packet
  packets json --only refused x.pcap                why packets are refused
  packets json --payload -c 1 x.pcap                the first packet, with the bytes of its payload";

const EXAMPLES_OF_SUMMARY: &str = "\
Examples:
  packets summary x.pcap                            what is in it, counted
  packets summary --only host=10.0.0.2 x.pcap       the same of the packets of a host
  tcpdump -U -w - | packets summary --duration 60   of what comes in a minute";

const EXAMPLES_OF_FLOWS: &str = "\
Examples:
  packets flows x.pcap                              who spoke with whom, the most bytes first
  packets flows --top 10 --by duration x.pcap       the ten longest conversations
  packets flows --json --only tcp x.pcap | jq .     those over TCP, for programs";

const EXAMPLES_OF_REPORT: &str = "\
Examples:
  packets report x.pcap > x.html                    a page that shows what is in it
  packets report --only 'not arp' x.pcap > x.html   the same without some packets
  packets report a.pcap b.pcap > both.html          of both captures";

const EXAMPLES_OF_FOLLOW: &str = "\
Examples:
  packets flows --only tcp x.pcap                                       the connections
  packets follow 10.0.0.1:4000-10.0.0.2:80 x.pcap                       what both endpoints sent
  packets follow --raw --direction 2 10.0.0.1:4000-10.0.0.2:80 x.pcap   the bytes of the second one";

/// The command line. Without a command it is that of `show`. It has no contract: tests compare what
/// words request.
pub fn command<'a>(alloc: Global) -> Result<Command<'a>, AllocError> {
    let program = program(
        alloc,
        PROGRAM,
        "Shows what is in a capture file: without a command as `show` does",
    )?
    .after_help(EXAMPLES)
    .args_conflicts_with_subcommands(true)
    .arg_required_else_help(true);
    let program = with_show(alloc, program)?;
    let program = with_command(program, show(alloc))?;
    let program = with_command(program, json(alloc))?;
    let program = with_command(program, summary(alloc))?;
    let program = with_command(program, flows(alloc))?;
    let program = with_command(program, report(alloc))?;
    with_command(program, follow(alloc))
}

fn show<'a>(alloc: Global) -> Result<Command<'a>, AllocError> {
    let command = Command::new(alloc, "show")
        .about("Writes a line for each packet")
        .after_help(EXAMPLES_OF_SHOW);
    with_show(alloc, command)
}

fn with_show<'a>(alloc: Global, command: Command<'a>) -> Result<Command<'a>, AllocError> {
    let command = command
        .arg(time(alloc))?
        .arg(utc(alloc)?)?
        .arg(number(alloc, "width", "COLUMNS", "Cuts each line to COLUMNS"))?
        .arg(flag(
            alloc,
            "link",
            "Shows hardware addresses, also of IP packets",
        )
        .short('e'))?
        .arg(bytes(alloc)?)?
        .arg(flag(
            alloc,
            "relative",
            "Counts sequence numbers of TCP from the first ones of their connection",
        ))?
        .arg(color(alloc))?
        .arg(write(alloc)?)?;
    with_input(alloc, command)
}

fn time<'a>(alloc: Global) -> Arg<'a> {
    Arg::new(alloc, "time")
        .long("time")
        .value_name("FORM")
        .help(
            "Shows seconds since the first packet, since the one before, or since 1970, or the date and time in UTC or of the local time zone",
        )
        .value_parser(["relative", "delta", "epoch", "utc", "local"].as_slice())
        .default_value("relative")
}

fn utc<'a>(alloc: Global) -> Result<Arg<'a>, AllocError> {
    flag(
        alloc,
        "utc",
        "Shows the date and time in UTC, as `--time utc`",
    )
    .conflicts_with("time")
}

// The bytes of packets, as tcpdump shows them; given twice, with the header of the link.
fn bytes<'a>(alloc: Global) -> Result<Arg<'a>, AllocError> {
    Arg::new(alloc, "bytes")
        .short('x')
        .visible_short_alias('X')?
        .long("bytes")
        .help(
            "Shows the bytes of each packet in hex, 16 a line; twice, from the Ethernet II header on, if it has one",
        )
        .action(ArgAction::Count)
        .conflicts_with("write")
}

fn color<'a>(alloc: Global) -> Arg<'a> {
    Arg::new(alloc, "color")
        .long("color")
        .value_name("WHEN")
        .help("When lines have colors: `auto` is on a terminal, if NO_COLOR is not set")
        .value_parser(["auto", "always", "never"].as_slice())
        .default_value("auto")
}

// The capture to be written in place of lines, as tcpdump names it.
fn write<'a>(alloc: Global) -> Result<Arg<'a>, AllocError> {
    Arg::new(alloc, "write")
        .short('w')
        .long("write")
        .value_name("FILE")
        .help(
            "Writes a capture of the packets to FILE, or - for standard output, in place of lines",
        )
        .conflicts_with("time")?
        .conflicts_with("utc")?
        .conflicts_with("width")?
        .conflicts_with("relative")?
        .conflicts_with("color")
}

fn json<'a>(alloc: Global) -> Result<Command<'a>, AllocError> {
    let command = Command::new(alloc, "json")
        .about("Writes a JSON object for each packet")
        .after_help(EXAMPLES_OF_JSON)
        .arg(flag(alloc, "payload", "Adds the bytes of payloads, in hex"))?;
    with_input(alloc, command)
}

fn summary<'a>(alloc: Global) -> Result<Command<'a>, AllocError> {
    let command = Command::new(alloc, "summary")
        .about(
            "Counts packets by protocol, refusal, checksum, fragment, conversation, size and time",
        )
        .after_help(EXAMPLES_OF_SUMMARY);
    with_input(alloc, command)
}

fn flows<'a>(alloc: Global) -> Result<Command<'a>, AllocError> {
    let command = Command::new(alloc, "flows")
        .about("Counts the packets of each conversation, in both directions")
        .after_help(EXAMPLES_OF_FLOWS)
        .arg(by(alloc))?
        .arg(number(alloc, "top", "N", "Lists the first N conversations"))?
        .arg(flag(alloc, "json", "Writes a JSON object in place of a table"))?;
    with_input(alloc, command)
}

fn report<'a>(alloc: Global) -> Result<Command<'a>, AllocError> {
    let command = Command::new(alloc, "report")
        .about("Writes what summary counts as a page for a browser")
        .after_help(EXAMPLES_OF_REPORT);
    with_input(alloc, command)
}

fn follow<'a>(alloc: Global) -> Result<Command<'a>, AllocError> {
    let command = Command::new(alloc, "follow")
        .about("Writes what the endpoints of a TCP connection sent, put together")
        .after_help(EXAMPLES_OF_FOLLOW)
        .arg(id(alloc))?
        .arg(direction(alloc))?
        .arg(raw(alloc)?)?
        .arg(hex(alloc)?)?
        .arg(flag(alloc, "json", "Writes a JSON object for each event"))?
        .arg(follow_window(alloc))?;
    with_input(alloc, command)
}

fn id<'a>(alloc: Global) -> Arg<'a> {
    Arg::new(alloc, "ID")
        .help(
            "The endpoints, HOST:PORT-HOST:PORT, with IPv6 addresses in brackets; or as flows lists them",
        )
        .required(true)
}

fn direction<'a>(alloc: Global) -> Arg<'a> {
    Arg::new(alloc, "direction")
        .long("direction")
        .value_name("N")
        .help("Only what the first endpoint of ID sent, or the second one")
        .value_parser(["1", "2"].as_slice())
}

fn raw<'a>(alloc: Global) -> Result<Arg<'a>, AllocError> {
    flag(
        alloc,
        "raw",
        "Writes the bytes alone, as they became available",
    )
    .conflicts_with("hex")?
    .conflicts_with("json")
}

fn hex<'a>(alloc: Global) -> Result<Arg<'a>, AllocError> {
    flag(alloc, "hex", "Writes the bytes in hex, 16 a line").conflicts_with("json")
}

fn follow_window<'a>(alloc: Global) -> Arg<'a> {
    Arg::new(alloc, "window")
        .long("window")
        .value_name("SIZE")
        .help(
            "Keeps SIZE bytes of each direction, or K, M, G, that were written, and takes as many after them",
        )
        .default_value("1M")
}

fn by<'a>(alloc: Global) -> Arg<'a> {
    Arg::new(alloc, "by")
        .long("by")
        .value_name("KEY")
        .help("Lists those with the most bytes or packets first, the earliest or the longest")
        .value_parser(["bytes", "packets", "first", "duration"].as_slice())
        .default_value("bytes")
}

// What each command takes: which packets are reported, and of which file.
fn with_input<'a>(alloc: Global, command: Command<'a>) -> Result<Command<'a>, AllocError> {
    command
        .arg(only(alloc))?
        .arg(number(alloc, "count", "N", "Ends after N packets").short('c'))?
        .arg(number(
            alloc,
            "duration",
            "SECONDS",
            "Ends with the first packet that comes SECONDS of packet time after the first one",
        ))?
        .arg(flag(
            alloc,
            "skip",
            "Passes over packets of link types that are not read, without a frame or too long",
        ))?
        .arg(number(
            alloc,
            "forget",
            "SECONDS",
            "Drops messages that got no fragment for one to two times SECONDS",
        ))?
        .arg(reassembly_memory(alloc))?
        .arg(flag(alloc, "no-checksums", "Verifies and shows no checksums"))?
        .arg(names(alloc))?
        .arg(read(alloc)?)?
        .arg(file(
            alloc,
            "The captures to read in their order, pcap or pcapng, or - for standard input",
        )
        .num_args(1..))
}

// What tcpdump needs so that no names of hosts and ports are looked up, once or more often.
fn names<'a>(alloc: Global) -> Arg<'a> {
    Arg::new(alloc, "no-names")
        .short('n')
        .help("Does nothing, as names of hosts and ports are never looked up")
        .action(ArgAction::Count)
}

// The file to be read, as tcpdump names it.
fn read<'a>(alloc: Global) -> Result<Arg<'a>, AllocError> {
    Arg::new(alloc, "read")
        .short('r')
        .long("read")
        .value_name("FILE")
        .help("The capture to read, as FILE alone")
        .conflicts_with("FILE")
}

fn reassembly_memory<'a>(alloc: Global) -> Arg<'a> {
    Arg::new(alloc, "reassembly-memory")
        .long("reassembly-memory")
        .value_name("SIZE")
        .help(
            "Drops the oldest messages while the incomplete ones take more than SIZE bytes, or K, M, G",
        )
        .default_value(REASSEMBLY_MEMORY)
}

fn only<'a>(alloc: Global) -> Arg<'a> {
    Arg::new(alloc, "only")
        .long("only")
        .value_name("WHAT")
        .help(
            "Only packets of a protocol, bad, refused, host=ADDRESS, port=N .., with and, or, not, ( )",
        )
        .long_help(CONDITIONS)
        .action(ArgAction::Append)
}
