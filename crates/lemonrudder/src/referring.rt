//! References to objects.

ghost use Rattle.std.specs.Prelude.{◌≡◌, ◌↔◌, ◌≤◌, IfErr, IfOk, IsTrue};
ghost use Rattle.cdr_core.specs.Value as value;
ghost use Rattle.cdr_core.specs.Writing.{IsWritable};
ghost use Rattle.lemonrudder.specs.Makes.{IsLocated, IsProfile, profile_to, reference_to};
ghost use Rattle.lemonrudder.specs.Profiles.{head_of};

use crate::layout::Layout;
use crate::refusal::{Refusal, copied, count_of, fitted};
use crate::sizes::{COUNTED, has_room_for_text, profile_end};
use cdr_core::has_no_nul;
use corbaloc::{LocationError, parse_location, reference_of};
use ior_core::{
    Component, IiopProfile, Ior, IorError, Profile, TAG_INTERNET_IOP, parse_text, print_text,
    read_iiop, write_iiop,
};
use std::alloc::{AllocError, Global};

/// How many addresses of a URL are taken: each has the whole key.
const MOST_ADDRESSES: usize = 64;

/// A profile of a reference: `lr_profile`.
#[derive(Clone, Copy, Debug, Drop)]
pub struct ProfileHead {
    pub data_size: u64,
    pub host_size: u64,
    pub key_size: u64,
    pub tag: u32,
    pub is_iiop: u32,
    pub minor: u32,
    pub port: u32,
    pub components: u32,
    pub reserved: u32,
}

impl ProfileHead {
    ghost use Rattle.lemonrudder.specs.Layouts.{laid, octets_of_profile};

    /// Fills a room: with the octets of the struct, as many as it has, and with zeros behind.
    fn tell(&self, room: &mut [u8])
        ensures { room.new ≡ laid (octets_of_profile self.now) room.old }
    {
        let mut layout = Layout::new();
        layout.put_u64(self.data_size);
        layout.put_u64(self.host_size);
        layout.put_u64(self.key_size);
        layout.put_u32(self.tag);
        layout.put_u32(self.is_iiop);
        layout.put_u32(self.minor);
        layout.put_u32(self.port);
        layout.put_u32(self.components);
        layout.put_u32(self.reserved);
        layout.fill(room);
    }
}

/// A reference.
#[derive(Drop)]
pub struct Referring {
    alloc: Global,
    ior: Ior,
}

/// An address of IIOP, and the object there.
#[derive(Clone, Copy)]
pub struct Address<'a> {
    pub minor: u32,
    pub host: &'a [u8],
    pub port: u16,
    pub key: &'a [u8],
}

/// The minor version of a number.
fn minor_version(number: u32) -> Result<u8, Refusal>
    ensures ok { IfOk result (λ n. (n ≡ number) × (number ≤ 2)) }
    ensures err { IfErr result (λ e. (e ≡ Refusal.Range) × (3 ≤ number)) }
{
    match u8::try_from(number) {
        Ok(minor) if minor <= 2 => Ok(minor),
        _ => Err(Refusal::Range),
    }
}

/// Whether octets can be written as a string.
fn is_text(octets: &[u8]) -> bool
    ensures { IsTrue result ↔ IsWritable (value.string octets.now) }
{
    count_of(octets) < COUNTED && has_no_nul(octets)
}

impl Address<'_> {
    /// Whether a profile of the address can be written, of this minor version.
    fn has_profile(&self, minor: u8) -> bool
        ensures { IsTrue result ↔ IsWritable (profile_to minor self.now.host.now self.now.port self.now.key.now) }
    {
        is_text(self.host) && count_of(self.key) <= COUNTED
    }

    /// Whether a reference of a type with that profile can be written.
    fn has_reference(&self, type_id: &[u8], minor: u8) -> bool
        requires { IsWritable (profile_to minor self.now.host.now self.now.port self.now.key.now) }
        ensures { IsTrue result ↔ IsWritable (reference_to type_id.now (profile_to minor self.now.host.now self.now.port self.now.key.now)) }
    {
        if !is_text(type_id) {
            return false;
        }
        profile_end(minor, count_of(self.host), count_of(self.key)) <= COUNTED
    }
}

/// The reference that a URL stands for. None where it is no URL, or is too large.
fn located(alloc: Global, text: &str) -> Result<Option<Ior>, AllocError>
    ensures { IfOk result (λ found. IsLocated text.now found) }
{
    let location = match parse_location(alloc, text) {
        Ok(location) => location,
        Err(LocationError::Memory) => return Err(AllocError),
        Err(_) => return Ok(None),
    };
    if location.addresses.len() > MOST_ADDRESSES {
        return Ok(None);
    }
    match reference_of(alloc, &location) {
        Ok(ior) => Ok(Some(ior)),
        Err(LocationError::Memory) => Err(AllocError),
        Err(_) => Ok(None),
    }
}

/// The profile of an address, which can be written.
fn profile_of(alloc: Global, minor: u8, address: &Address<'_>) -> Result<Profile, AllocError>
    requires { IsWritable (profile_to minor address.now.host.now address.now.port address.now.key.now) }
    ensures { IfOk result (λ p. IsProfile (profile_to minor address.now.host.now address.now.port address.now.key.now) p) }
{
    let profile = IiopProfile {
        minor,
        host: Vec::from_slice(alloc, address.host)?,
        port: address.port,
        object_key: Vec::from_slice(alloc, address.key)?,
        components: Vec::new(alloc),
    };
    let mut octets = Vec::new(alloc);
    write_iiop(&profile, &mut octets)?;
    Ok(Profile {
        tag: TAG_INTERNET_IOP,
        octets,
    })
}

/// What is reported of a profile, which is one of IIOP or not.
fn head_of(profile: &Profile, iiop: &Option<IiopProfile>) -> ProfileHead
    ensures { result ≡ head_of profile.now iiop.now }
{
    let mut head = ProfileHead {
        data_size: count_of(&profile.octets),
        host_size: 0,
        key_size: 0,
        tag: profile.tag,
        is_iiop: 0,
        minor: 0,
        port: 0,
        components: 0,
        reserved: 0,
    };
    if let Some(iiop) = iiop {
        head.host_size = count_of(&iiop.host);
        head.key_size = count_of(&iiop.object_key);
        head.is_iiop = 1;
        head.minor = u32::from(iiop.minor);
        head.port = u32::from(iiop.port);
        head.components = u32::try_from(iiop.components.len()).unwrap_or(u32::MAX);
    }
    head
}

impl Referring {
    ghost use Rattle.std.specs.Prelude.{◌≡◌, MatchResult, None, Ok, OnErr, Some};
    ghost use Rattle.lemonrudder.specs.Makes.{IsAddressed, IsParsed, profile_to};
    ghost use Rattle.lemonrudder.specs.Profiles.{IsSeenAt, OnComponent, OnPart, OnProfile, profile_at};
    ghost use Rattle.lemonrudder.specs.Refers.{OnPrint, OnProfiles, OnTypeId};

    /// The reference that a text spells: `IOR:` and digits, or a URL `corbaloc:`.
    pub fn parse(alloc: Global, text: &[u8]) -> Result<Referring, Refusal>
        ensures { IsParsed text.now result }
    {
        let text = std::str::from_utf8(text).map_err(|_| Refusal::Reference)?;
        match parse_text(alloc, text) {
            Ok(ior) => Ok(Referring { alloc, ior }),
            Err(IorError::NoPrefix) => match located(alloc, text)? {
                Some(ior) => Ok(Referring { alloc, ior }),
                None => Err(Refusal::Reference),
            },
            Err(error) => Err(Refusal::from(error)),
        }
    }

    /// A reference of a type to an object at an address. Where it is refused no memory is taken.
    pub fn iiop(alloc: Global, type_id: &[u8], address: &Address<'_>) -> Result<Referring, Refusal>
        ensures { IsAddressed type_id.now address.now.minor (profile_to address.now.minor address.now.host.now address.now.port address.now.key.now) result }
    {
        let minor = minor_version(address.minor)?;
        if !address.has_profile(minor) {
            return Err(Refusal::Text);
        }
        if !address.has_reference(type_id, minor) {
            return Err(Refusal::Text);
        }
        let profile = profile_of(alloc, minor, address)?;
        let ior = Ior {
            type_id: Vec::from_slice(alloc, type_id)?,
            profiles: vec![in alloc; profile]?,
        };
        Ok(Referring { alloc, ior })
    }

    /// Writes the text of the reference.
    pub fn print(&self, room: &mut [u8]) -> Result<u64, Refusal>
        ensures printed { OnPrint room.old room.new self.now self.now result }
        ensures refused { OnErr result (room.new ≡ room.old) }
    {
        if !self.ior.is_writable() {
            return Err(Refusal::Text);
        }
        if !has_room_for_text(&self.ior, room) {
            return Err(Refusal::Room);
        }
        let text = print_text(self.alloc, &self.ior)?;
        fitted(text.as_bytes(), room)
    }

    /// Copies the repository id of its type.
    pub fn type_id(&self, room: &mut [u8]) -> u64
        ensures { OnTypeId room.old room.new self.now self.now (Ok result) }
    {
        copied(&self.ior.type_id, room)
    }

    /// How many profiles it has.
    pub fn profiles(&self) -> u64
        ensures { OnProfiles self.now self.now (Ok result) }
    {
        self.ior.profiles.len() as u64
    }

    /// The profile of an index.
    fn at(&self, index: u32) -> Result<&Profile, Refusal>
        ensures { MatchResult result (λ p. profile_at index self.now ≡ Some p.now) (λ e. (e ≡ Refusal.None) × (profile_at index self.now ≡ None)) }
    {
        self.ior.profiles.get(index as usize).ok_or(Refusal::None)
    }

    /// The profile of an index, as one of IIOP. None where it is no valid one.
    fn iiop_at(&self, index: u32) -> Result<Option<IiopProfile>, Refusal>
        ensures { IsSeenAt (profile_at index self.now) result }
    {
        let profile = self.at(index)?;
        if profile.tag != TAG_INTERNET_IOP {
            return Ok(None);
        }
        match read_iiop(self.alloc, &profile.octets) {
            Ok(iiop) => Ok(Some(iiop)),
            Err(IorError::Memory) => Err(Refusal::Memory),
            Err(_) => Ok(None),
        }
    }

    /// Says what a profile has.
    pub fn profile(&self, index: u32, room: &mut [u8]) -> Result<u64, Refusal>
        ensures told { OnProfile index room.old room.new self.now self.now result }
        ensures refused { OnErr result (room.new ≡ room.old) }
    {
        let iiop = self.iiop_at(index)?;
        head_of(self.at(index)?, &iiop).tell(room);
        Ok(0)
    }

    /// Copies a part of a profile.
    pub fn part(&self, index: u32, part: u32, room: &mut [u8]) -> Result<u64, Refusal>
        ensures copied { OnPart index part room.old room.new self.now self.now result }
        ensures refused { OnErr result (room.new ≡ room.old) }
    {
        if part == 0 {
            return Ok(copied(&self.at(index)?.octets, room));
        }
        let iiop = self.iiop_at(index)?.ok_or(Refusal::None)?;
        match part {
            1 => Ok(copied(&iiop.host, room)),
            2 => Ok(copied(&iiop.object_key, room)),
            _ => Err(Refusal::None),
        }
    }

    /// Copies a tagged component of a profile, and gives its tag.
    pub fn component(
        &self,
        index: u32,
        component: u32,
        tag: &mut u32,
        room: &mut [u8],
    ) -> Result<u64, Refusal>
        ensures copied { OnComponent index component tag.old tag.new room.old room.new self.now self.now result }
        ensures refused { OnErr result ((tag.new ≡ tag.old) × (room.new ≡ room.old)) }
    {
        let iiop = self.iiop_at(index)?.ok_or(Refusal::None)?;
        let found: &Component = iiop
            .components
            .get(component as usize)
            .ok_or(Refusal::None)?;
        *tag = found.tag;
        Ok(copied(&found.octets, room))
    }
}
