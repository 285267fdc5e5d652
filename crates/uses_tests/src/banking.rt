//! A bank that an engine asks.

use crate::bank::{deposit, reply};
use crate::octets::{BALANCE, OVERDRAWN, RETURNED};
use ft_orb::Event;
use giop_frames::Limits;
use std::alloc::{AllocError, Global};
use std::hash::RandomState;
use std::test::Fail;
use uses::serve_bank;

#[test]
fn a_deposit_that_comes_again_acts_once(rt: HostRuntime) -> Result<(), Fail> {
    let alloc = rt.alloc();
    let events = vec![in alloc;
        Event::Opened(1),
        Event::Piece(1, 50, deposit(alloc, 1, 1000)?),
        Event::Lost(1),
        Event::Opened(2),
        Event::Piece(2, 60, deposit(alloc, 1, 1000)?),
        Event::Piece(2, 70, Vec::from_slice(alloc, BALANCE)?),
    ]?;
    let hasher = RandomState::new(&rt)?;
    let mut written = Vec::new(alloc);
    let bank = serve_bank(alloc, hasher, Limits::default(), &events, &mut written)?;
    let answer = reply(alloc, RETURNED, 1000)?;
    let expected = vec![in alloc;
        Vec::new(alloc),
        answer.clone()?,
        Vec::new(alloc),
        Vec::new(alloc),
        answer.clone()?,
        answer,
    ]?;
    assert!(rt; written == expected);
    assert_eq!(rt; bank.balance(b"A"), 1000);
    Ok(())
}

#[test]
fn nothing_is_taken_that_is_not_there(rt: HostRuntime) -> Result<(), Fail> {
    let alloc = rt.alloc();
    let events = vec![in alloc;
        Event::Opened(1),
        Event::Piece(1, 50, deposit(alloc, 1, 1000)?),
        Event::Piece(1, 50, deposit(alloc, 2, -2000)?),
        Event::Piece(1, 50, deposit(alloc, 3, i64::MAX)?),
    ]?;
    let hasher = RandomState::new(&rt)?;
    let mut written = Vec::new(alloc);
    let bank = serve_bank(alloc, hasher, Limits::default(), &events, &mut written)?;
    let expected = vec![in alloc;
        Vec::new(alloc),
        reply(alloc, RETURNED, 1000)?,
        reply(alloc, OVERDRAWN, 1000)?,
        reply(alloc, OVERDRAWN, 1000)?,
    ]?;
    assert!(rt; written == expected);
    assert_eq!(rt; bank.balance(b"A"), 1000);
    Ok(())
}

/// How many keys there are: each comes on two of 100 connections.
const KEYS: i32 = 50;

/// The deposits of the connections from 0 on: the n-th key deposits n cents.
fn deposits(alloc: Global) -> Result<Vec<Vec<u8>>, AllocError> {
    let mut requests = Vec::new(alloc);
    for key in 1..=KEYS {
        requests.push(deposit(alloc, key, i64::from(key))?)?;
        requests.push(deposit(alloc, key, i64::from(key))?)?;
    }
    Ok(requests)
}

/// Their answers.
fn answers(alloc: Global) -> Result<Vec<Vec<u8>>, AllocError> {
    let mut replies = Vec::new(alloc);
    let mut balance: i64 = 0;
    for key in 1..=KEYS {
        balance = balance.saturating_add(i64::from(key));
        replies.push(reply(alloc, RETURNED, balance)?)?;
        replies.push(reply(alloc, RETURNED, balance)?)?;
    }
    Ok(replies)
}

/// Opens a connection for each request.
fn open(requests: &[Vec<u8>], events: &mut Vec<Event>) -> Result<(), AllocError> {
    for connection in 0..requests.len() {
        events.push(Event::Opened(connection as u64))?;
    }
    Ok(())
}

/// One octet of each request.
fn add_octets(
    alloc: Global,
    requests: &[Vec<u8>],
    at: usize,
    events: &mut Vec<Event>,
) -> Result<(), AllocError> {
    for (connection, request) in requests.iter().enumerate() {
        if let Some(octet) = request.get(at) {
            let piece = vec![in alloc; *octet]?;
            events.push(Event::Piece(connection as u64, 50, piece))?;
        }
    }
    Ok(())
}

/// How many octets a deposit takes.
const DEPOSIT_OCTETS: usize = 96;

#[test]
fn each_key_of_100_connections_deposits_once(rt: HostRuntime) -> Result<(), Fail> {
    let alloc = rt.alloc();
    let requests = deposits(alloc)?;
    let mut events = Vec::new(alloc);
    open(&requests, &mut events)?;
    for at in 0..DEPOSIT_OCTETS {
        add_octets(alloc, &requests, at, &mut events)?;
    }
    let hasher = RandomState::new(&rt)?;
    let mut written = Vec::new(alloc);
    let bank = serve_bank(alloc, hasher, Limits::default(), &events, &mut written)?;
    written.retain(|octets| !octets.is_empty());
    assert!(rt; written == answers(alloc)?);
    assert_eq!(rt; bank.balance(b"A"), 1275);
    Ok(())
}
