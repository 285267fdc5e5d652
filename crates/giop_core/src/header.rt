//! The header of a message (GIOP 9.4.1).

ghost use Rattle.std.specs.Prelude.{◌≡◌, ◌↔◌, Ok, Some, IsTrue};
ghost use Rattle.giop_core.specs.Headers.{can_be_cut, flags_octet, flags_of, has_kind, has_magic, header_octets, header_of, is_possible, kind_number, kind_of, minor_of, version_of};
ghost use Rattle.giop_core.specs.Rows.{has_id_first, BeginWithId};
ghost use Rattle.giop_core.specs.Texts.{kind_text, version_text};

use cdr_core::Order;
use std::fmt;
use thiserror::Error;

/// A version of GIOP: 1.0, 1.1 or 1.2.
#[derive(Clone, Copy, Debug, PartialEq, Eq)]
pub enum Version {
    V10,
    V11,
    V12,
}

impl Version {
    /// Whether the request id comes right after the header of a Request, a Reply and a Fragment, as in 1.2. In 1.0
    /// and 1.1 it comes after the service contexts of a Request and a Reply, and a Fragment has none
    /// (GIOP 9.4.2, GIOP 9.4.3, GIOP 9.4.9).
    #[inline]
    #[tactic(auto, unfolding(crate::specs::Rows::row))]
    pub fn has_id_first(self) -> bool
        ensures is { result ≡ has_id_first self }
        ensures rows { IsTrue result ↔ BeginWithId self }
    {
        matches!(self, Version::V12)
    }
}

/// `1.0`, `1.1` or `1.2`.
impl fmt::Display for Version {
    ghost output = { λ version. Some (version_text version) };

    fn fmt<W: fmt::Write>(&self, f: &mut fmt::Formatter<W>) -> fmt::Result {
        match self {
            Version::V10 => f.write_str("1.0"),
            Version::V11 => f.write_str("1.1"),
            Version::V12 => f.write_str("1.2"),
        }
    }
}

/// A kind of message. 1.0 has no Fragment.
#[derive(Clone, Copy, Debug, PartialEq, Eq)]
pub enum MessageKind {
    Request,
    Reply,
    CancelRequest,
    LocateRequest,
    LocateReply,
    CloseConnection,
    MessageError,
    Fragment,
}

impl MessageKind {
    /// Whether a version lets messages of this kind be cut into fragments: 1.1 a Request and a Reply, 1.2 also a
    /// LocateRequest and a LocateReply, 1.0 none. A Fragment is one of them where there is one: others may follow it
    /// (GIOP 9.4.1, GIOP 9.4.9).
    #[inline]
    pub fn can_be_cut(self, version: Version) -> bool
        ensures { result ≡ can_be_cut version self }
    {
        match self {
            MessageKind::Request | MessageKind::Reply | MessageKind::Fragment => {
                !matches!(version, Version::V10)
            }
            MessageKind::LocateRequest | MessageKind::LocateReply => {
                matches!(version, Version::V12)
            }
            _ => false,
        }
    }
}

/// The name that the standard gives it, as `CancelRequest`.
impl fmt::Display for MessageKind {
    ghost output = { λ kind. Some (kind_text kind) };

    fn fmt<W: fmt::Write>(&self, f: &mut fmt::Formatter<W>) -> fmt::Result {
        match self {
            MessageKind::Request => f.write_str("Request"),
            MessageKind::Reply => f.write_str("Reply"),
            MessageKind::CancelRequest => f.write_str("CancelRequest"),
            MessageKind::LocateRequest => f.write_str("LocateRequest"),
            MessageKind::LocateReply => f.write_str("LocateReply"),
            MessageKind::CloseConnection => f.write_str("CloseConnection"),
            MessageKind::MessageError => f.write_str("MessageError"),
            MessageKind::Fragment => f.write_str("Fragment"),
        }
    }
}

/// What the first twelve octets of a message say.
#[derive(Clone, Copy, Debug, PartialEq, Eq)]
pub struct Header {
    pub version: Version,
    /// The order of the octets of each number in the message, the size here among them.
    pub order: Order,
    /// Whether more fragments of the message follow.
    pub more: bool,
    pub kind: MessageKind,
    /// How many octets follow the header.
    pub size: u32,
}

/// Why twelve octets are not a header. Where several apply, the first in this order is reported.
#[derive(Clone, Copy, Debug, PartialEq, Eq, Error)]
pub enum HeaderFault {
    /// The first four octets are not `GIOP`.
    #[error("bad magic")]
    BadMagic,
    /// The version is none of 1.0, 1.1 and 1.2.
    #[error("bad version")]
    BadVersion,
    /// A reserved bit of the flags is not 0. Bit 0 is the byte order, and from 1.1 on bit 1 says that
    /// more fragments follow; all others are reserved.
    #[error("bad flags")]
    BadFlags,
    /// The version has no such message type.
    #[error("bad type")]
    BadType,
    /// More fragments are to follow a message that the version does not let be cut.
    #[error("bad cut")]
    BadCut,
}

/// Whether octets begin with `GIOP`.
fn has_magic(octets: &[u8; 12]) -> bool
    ensures { result ≡ has_magic octets.now }
{
    octets[0] == b'G' && octets[1] == b'I' && octets[2] == b'O' && octets[3] == b'P'
}

/// The version that a major and a minor number name.
fn version_of(major: u8, minor: u8) -> Option<Version>
    ensures { result ≡ version_of major minor }
{
    match (major, minor) {
        (1, 0) => Some(Version::V10),
        (1, 1) => Some(Version::V11),
        (1, 2) => Some(Version::V12),
        _ => None,
    }
}

/// The minor number of a version.
fn minor_of(version: Version) -> u8
    ensures { result ≡ minor_of version }
{
    match version {
        Version::V10 => 0,
        Version::V11 => 1,
        Version::V12 => 2,
    }
}

/// What the flags say: the byte order, and whether more fragments follow.
fn flags_of(version: Version, octet: u8) -> Option<(Order, bool)>
    ensures { result ≡ flags_of version octet }
{
    match (version, octet) {
        (_, 0) => Some((Order::Big, false)),
        (_, 1) => Some((Order::Little, false)),
        (Version::V11 | Version::V12, 2) => Some((Order::Big, true)),
        (Version::V11 | Version::V12, 3) => Some((Order::Little, true)),
        _ => None,
    }
}

/// The flags for a byte order, and for more fragments that follow or not.
fn flags_octet(order: Order, more: bool) -> u8
    ensures { result ≡ flags_octet order more }
{
    match (order, more) {
        (Order::Big, false) => 0,
        (Order::Little, false) => 1,
        (Order::Big, true) => 2,
        (Order::Little, true) => 3,
    }
}

/// The kind that a message type names.
fn kind_of(octet: u8) -> Option<MessageKind>
    ensures { result ≡ kind_of octet }
{
    match octet {
        0 => Some(MessageKind::Request),
        1 => Some(MessageKind::Reply),
        2 => Some(MessageKind::CancelRequest),
        3 => Some(MessageKind::LocateRequest),
        4 => Some(MessageKind::LocateReply),
        5 => Some(MessageKind::CloseConnection),
        6 => Some(MessageKind::MessageError),
        7 => Some(MessageKind::Fragment),
        _ => None,
    }
}

/// The message type of a kind.
fn kind_number(kind: MessageKind) -> u8
    ensures { result ≡ kind_number kind }
{
    match kind {
        MessageKind::Request => 0,
        MessageKind::Reply => 1,
        MessageKind::CancelRequest => 2,
        MessageKind::LocateRequest => 3,
        MessageKind::LocateReply => 4,
        MessageKind::CloseConnection => 5,
        MessageKind::MessageError => 6,
        MessageKind::Fragment => 7,
    }
}

/// Whether a version has a kind.
fn has_kind(version: Version, kind: MessageKind) -> bool
    ensures { result ≡ has_kind version kind }
{
    !matches!((version, kind), (Version::V10, MessageKind::Fragment))
}

impl Header {
    /// How many octets a header has.
    pub const LEN: usize = 12;

    /// Reads a header, or finds the first fault in it.
    #[inline(always)]
    pub fn read(octets: &[u8; 12]) -> Result<Header, HeaderFault>
        ensures { result ≡ header_of octets.now }
    {
        if !has_magic(octets) {
            return Err(HeaderFault::BadMagic);
        }
        let version = version_of(octets[4], octets[5]).ok_or(HeaderFault::BadVersion)?;
        let (order, more) = flags_of(version, octets[6]).ok_or(HeaderFault::BadFlags)?;
        let kind = kind_of(octets[7]).ok_or(HeaderFault::BadType)?;
        if !has_kind(version, kind) {
            return Err(HeaderFault::BadType);
        }
        if more && !kind.can_be_cut(version) {
            return Err(HeaderFault::BadCut);
        }
        Ok(Header {
            version,
            order,
            more,
            kind,
            size: order.ulong_of(&octets[8..]),
        })
    }

    /// Whether there can be such a header: the version has the kind, and lets it be cut where more
    /// fragments follow.
    pub fn is_possible(&self) -> bool
        ensures { result ≡ is_possible self.now }
    {
        has_kind(self.version, self.kind) && (!self.more || self.kind.can_be_cut(self.version))
    }

    /// The octets of the header, which can be one.
    #[tactic(auto, using(crate::proofs::HeaderLemmas::header_again))]
    pub fn write(&self) -> [u8; 12]
        requires { IsTrue (is_possible self.now) }
        ensures spelled { result ≡ header_octets self.now }
        ensures again { header_of result ≡ Ok self.now }
    {
        // that the size is one of 32 bits is known where it is read
        let _size = self.size;
        self.octets()
    }

    /// The octets of the header, whether or not there can be such a one.
    pub(crate) fn octets(&self) -> [u8; 12]
        ensures { result ≡ header_octets self.now }
    {
        let minor = minor_of(self.version);
        let flags = flags_octet(self.order, self.more);
        let kind = kind_number(self.kind);
        let mut octets = [b'G', b'I', b'O', b'P', 1, minor, flags, kind, 0, 0, 0, 0];
        self.order.put_ulong(self.size, &mut octets[8..]);
        octets
    }
}
