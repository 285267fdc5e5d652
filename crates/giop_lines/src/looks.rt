//! What octets look like that are no GIOP.

use std::fmt;

/// A protocol that octets look like.
#[derive(Clone, Copy)]
pub enum Looks {
    Http,
    Tls,
}

impl Looks {
    /// Its name.
    pub fn name(self) -> &'static str {
        match self {
            Looks::Http => "HTTP",
            Looks::Tls => "TLS",
        }
    }
}

impl fmt::Display for Looks {
    fn fmt<W: fmt::Write>(&self, f: &mut fmt::Formatter<W>) -> fmt::Result {
        f.write_str(self.name())
    }
}

/// What messages of HTTP/1.1 begin with (RFC 9112), and a connection of HTTP/2 (RFC 9113, 3.4).
const HTTP: [&[u8]; 10] = [
    b"HTTP/",
    b"GET ",
    b"HEAD ",
    b"POST ",
    b"PUT ",
    b"DELETE ",
    b"CONNECT ",
    b"OPTIONS ",
    b"PATCH ",
    b"PRI * HTTP/",
];

/// What these octets of a stream look like, if anything is known. A record of TLS begins with its type, 20 to 23, and a
/// version from 3.0 to 3.4 (RFC 8446, 5.1).
pub fn looks_of(octets: &[u8]) -> Option<Looks> {
    if let [20..=23, 3, 0..=4, ..] = octets {
        return Some(Looks::Tls);
    }
    for word in HTTP {
        if octets.starts_with(word) {
            return Some(Looks::Http);
        }
    }
    None
}
