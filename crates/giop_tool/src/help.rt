//! The texts of the program's help: what each subcommand is for, what goes in, what its lines mean, and an example.

use crate::options::{Told, told_options};
use giop_run::{LIMIT, PARTIALS};
use std::alloc::{AllocError, Global};

/// The version that `giop --version` prints.
pub(crate) const VERSION: &str = "0.2.0";

/// What the help of `giop` begins with.
pub(crate) const BASE: &str =
    "Shows GIOP streams and object references, and serves a counter: to scripts, and over TCP.
Without a subcommand it plays a script";

/// What the help of `giop` says after its options.
pub(crate) const DOCUMENTS: &str = "`giop help COMMAND` has an example of each.

Documents, by their paths in the repository:
  docs/CLI.md      every option, line, refusal and exit status of this program
  docs/INTEROP.md  calling `giop serve` from an ORB, and what a hostile peer can take of it
  docs/GUIDE.md    the same engine from Rattle
  docs/EMBEDDING.md  the same engine from C, C++, Python and Rust
  docs/giop.1      this help as a manual page";

/// What the help of `giop play` says after its options.
const PLAY: &str =
    "Input: a line for each event, `open C`, `bytes C M HEX`, `close C` or `lost C`, where C is the number
of a connection, M a moment in units of 100 ns, and HEX octets in hexadecimal digits. Numbers have decimal
digits alone. Empty lines and lines that begin with # are left out.

The server has one object, a counter with the object key `c` and the operations `add(in long n)`, which
returns the new total, and `get()`, both of a long long.

Lines: `C HEX` for each event at which the server writes to connection C, and last `total N`, the counter's
total.

Example: the request get() of GIOP 1.2, its reply, and the total
  $ cat get.script
  open 1
  bytes 1 0 47494f5001020000000000200000001403000000000000000000000163000000000000046765740000000000
  $ giop play --start 5 < get.script
  1 47494f5001020001000000140000001400000000000000000000000000000005
  total 5

With --engine the input may also have these lines:
  park                      The next request that is asked for is parked, and not answered. Several add up
  answer N                  The owner performs the call that is parked under number N as it answers now, and all who
                            wait for it get a reply. Numbers count from 0 what is asked for, parked or not
  decline N                 The owner declines it, and all who wait for it are told TRANSIENT with COMPLETED_NO
  owner performs            From here on the owner performs; so it does where no line says otherwise
  owner gives_up            It gives requests up
  owner system NAME MINOR   It answers a system exception, as TRANSIENT, with COMPLETED_MAYBE
  owner mistypes            It hands in a result of another type, and the request is given up
  owner declines            It declines requests, with TRANSIENT and COMPLETED_NO
  owner leaves              It gives requests up, with CloseConnection first where nobody waits on the connection
What is parked takes its place among the outcomes when it comes, and acts when it is answered. A connection that was
lost or closed, or whose stream has ended, gets nothing. A request that is given up is not performed and its connection
is lost, so it is asked for again when it comes again. So is one that is declined: nothing of it is kept, though its
connection stays. What is parked stays so where the owner has no outcome for it.

These lines are printed before what an event writes:
  ask C KEY OPERATION       With --asks: a request on connection C is asked for
  parked N C KEY OPERATION  It is parked, under number N
  repeat C                  What is parked comes again: it waits too, or wants no reply, or is told TRANSIENT with
                            COMPLETED_MAYBE, where as many wait as may, on connections that go on
and these after it; C is lost, and K and H count requests and locates on C since the event's last `parked` or `repeat`:
  given_up C K              A request is given up; the K before it are answered
  full C K                  The same, since no more may be parked
  memory C H K              An allocation failed; of what the event brought H count, and K are answered
For `answer N` and `decline N` there is `C HEX` for each reply, `memory C 0 0` where one can't be written, or
  unanswered N              The owner has no outcome for it

Exit status: 0 where the script is played, else 1";

/// What the help of `giop show` says of its lines.
const SHOW_LINES: &str =
    "Lines: a message's version, byte order, kind and fields, and below it one for each service context and for
what FT_REQUEST says. Then how the stream ends:
  end N messages                 after a message, with nothing left over
  rest K octets, P partial       in a frame that is not whole, or before the last fragment of P messages
  fault after N messages: FAULT  where the octets are no GIOP; docs/CLI.md has the faults

Example:
  $ echo 47494f50 01000005 00000000 | giop show
  1.0 big CloseConnection
  end 1 messages";

/// What the help of `giop check` says of its line.
const CHECK_LINES: &str = "Line: how the stream ends, as the last line of `giop show`.

Example:
  $ echo 47494f50 01000005 00000000 | giop check
  end 1 messages";

/// What the help of `giop trace` says after its options.
const TRACE: &str =
    "Input: what `tshark -r CAPTURE -q -z follow,tcp,raw,N` prints, with N from 0 for each connection, one after
another: lines of hexadecimal digits, those that begin with a tab of the side that accepted the connection.
Other lines are passed over. With --raw octets of one direction. A message has at most 1,048,576 octets. Or what
`tshark -q -z follow,tcp,yaml,N` prints, or giop-capture hands on: then the lines tell packets, times and latencies.

Lines: one for each message of either side, in order: its number, its direction, `>` from the side that opened
the connection and `<` from the one that accepted it, how many octets of that direction have come with its last
one, and what it says, in the words of `giop show`; of an answer first the request that it answers. At the end
what was counted.

Example:
  $ tshark -r retry.pcap -q -z follow,tcp,raw,0 | giop trace
  connection 1, stream 0, 127.0.0.1:40000 > 127.0.0.1:2809
  1 > to 52 1.2 little Request id 2 reply full key 63 operation add body 07000000, 4 octets
  2 < to 32 1.2 little Reply id 2 to add, 1 after request 1: status NO_EXCEPTION body 0700000000000000, 8 octets
  3 > to 64 1.2 little CloseConnection
  end 3 messages on 1 connections
  requests without a reply 0
  of these cancelled 0
  replies without a request 0
  repeats 0
  faults 0, 0 octets passed over

Exit status: 0 where each direction ends after a message with nothing left, 2 where FILE can't be read, else 1";

/// What the help of `giop ior` says after its options.
const IOR: &str =
    "Lines: the type, and for each profile its version of IIOP, host, port and object key, with a line for each
tagged component; `nil` for the nil reference.

Example:
  $ giop ior IOR:000000000000000a49444c3a413a312e30000000000000010000000000000011000100000000000268000af90000000163
  type IDL:A:1.0
  profile 0 iiop 1.0 host h port 2809 key 63
  $ giop ior --names corbaloc::1.2@example.org/NameService
  iiop 1.2 example.org:2809 key 4e616d6553657276696365 NameService

Exit status: 0 where TEXT is a reference or such a URL, else 1";

/// What the help of `giop serve` says after its options.
const SERVE: &str =
    "It listens on 127.0.0.1 once the reference is printed, serves each connection to its end, however that
comes, and stops after the last one. The object is the counter of `giop play`.

Lines: the object reference. With --log on standard error, for each request as it is decided,
  C Request id N TARGET operation TEXT[ ft client TEXT retention N expiration N] RESULT
where C is the connection, ft what an FT_REQUEST context says (`ft bad` where it is not valid), and RESULT
`performed`, `repeat`, `refused ID` with the repository id of the system exception, or `not performed` where memory
ran out.

Example:
  $ giop serve --port 2809 --connections 1
  IOR:000000000000001049444c3a436f756e7465723a312e3000000000010000000000000020000102000000000a3132372e302e302e31000af9000000016300000000000000

Exit status: 0 where all connections were served, else 1";

/// What stands after the options in the help of a subcommand.
#[derive(Clone, Copy)]
enum After {
    /// This text.
    Text(&'static str),
    /// What goes into a subcommand that reads a stream, then this text, and the exit status.
    Stream(&'static str),
}

/// A subcommand.
pub(crate) struct Subcommand {
    pub(crate) name: &'static str,
    /// What it is for.
    pub(crate) about: &'static str,
    after: After,
}

/// The subcommands, in the order in which the help has them.
static SUBCOMMANDS: [Subcommand; 6] = [
    Subcommand {
        name: "play",
        about: "Plays a script of events on standard input, and prints what is written",
        after: After::Text(PLAY),
    },
    Subcommand {
        name: "show",
        about: "Shows the messages of a stream",
        after: After::Stream(SHOW_LINES),
    },
    Subcommand {
        name: "check",
        about: "Prints how a stream ends",
        after: After::Stream(CHECK_LINES),
    },
    Subcommand {
        name: "trace",
        about: "Shows both directions of connections, with the request that each reply answers",
        after: After::Text(TRACE),
    },
    Subcommand {
        name: "ior",
        about: "Shows the type and the profiles of an object reference",
        after: After::Text(IOR),
    },
    Subcommand {
        name: "serve",
        about: "Serves a counter on 127.0.0.1, and prints its object reference",
        after: After::Text(SERVE),
    },
];

/// What goes into a subcommand that reads a stream, and then its lines.
fn stream_text(alloc: Global, lines: &str) -> Result<String, AllocError> {
    format!(in alloc;
        "Input: one direction of one connection, what a client sent or what a server sent, as hexadecimal digits of
either case; spaces, tabs and line ends between them mean nothing. With --raw it is the octets themselves. All of
it is read first. A message may have {LIMIT} octets, and {PARTIALS} messages may be partial at a time.

{lines}

Exit status: 0 where the stream ends after a message with nothing left, 2 where FILE can't be read, else 1"
    )
}

/// A subcommand, with what stands after the options in its help.
#[derive(Drop)]
pub(crate) struct Page {
    pub(crate) subcommand: &'static Subcommand,
    pub(crate) after: String,
}

/// What stands after the options in the help of a subcommand.
fn after_of(alloc: Global, subcommand: &Subcommand) -> Result<String, AllocError> {
    match subcommand.after {
        After::Text(text) => String::from_str(alloc, text),
        After::Stream(lines) => stream_text(alloc, lines),
    }
}

/// All subcommands.
fn pages(alloc: Global) -> Result<Vec<Page>, AllocError> {
    let mut all = Vec::new(alloc);
    for subcommand in &SUBCOMMANDS {
        let after = after_of(alloc, subcommand)?;
        if all.push(Page { subcommand, after }).is_err() {
            return Err(AllocError);
        }
    }
    Ok(all)
}

/// The texts of the help, with the numbers that the parser keeps to.
#[derive(Drop)]
pub(crate) struct Texts {
    pub(crate) options: Vec<Told>,
    pub(crate) pages: Vec<Page>,
}

impl Texts {
    /// The texts of all options and subcommands.
    pub(crate) fn new(alloc: Global) -> Result<Texts, AllocError> {
        let options = told_options(alloc)?;
        Ok(Texts {
            options,
            pages: pages(alloc)?,
        })
    }
}
