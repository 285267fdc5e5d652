//! Serve in a loop: requests act once, however their octets come.

ghost use Rattle.std.specs.Prelude.{◌≡◌, ◌++◌, List, IfOk, OnOk, map, reverse};
ghost use Rattle.ft_orb.specs.History.{Event};
ghost use Rattle.ft_orb.specs.Outputs.{Made, table_says};
ghost use Rattle.ft_orb.specs.Standing.{Stands};
ghost use Rattle.uses.specs.Pieces.{AreServedOnce, event_of, octets_for};

use crate::serving::ServingError;
use crate::tickets::Tickets;
use ft_log::Retention;
use ft_objects::Servant;
use ft_orb::{ServeError, Server};
use giop_frames::Limits;
use std::alloc::Global;
use std::hash::RandomState;

/// Octets that came, and the moment at which they did.
#[derive(Debug, Drop)]
pub struct Piece {
    pub moment: u64,
    pub octets: Vec<u8>,
}

/// Feeds pieces of connection 1, one after another. The contract has the answers of the server's table, as that of `feed`
/// has.
fn feed_all<S: Servant + Drop>(
    server: &mut Server<S>,
    pieces: &[Piece],
    out: &mut Vec<u8>,
) -> Result<(), ServeError>
    ensures written { OnOk result ((made : Made S) (past : List Event) → Stands S.meaning made server.old past
        → out.new.items ≡ out.old.items ++ octets_for made.limits S.meaning.knows (table_says S.meaning made) past (map event_of pieces.now)) }
    ensures stands { OnOk result ((made : Made S) (past : List Event) → Stands S.meaning made server.old past
        → Stands S.meaning made server.new (reverse (map event_of pieces.now) ++ past)) }
{
    for piece in pieces {
        server.feed(1, piece.moment, &piece.octets, out)?;
    }
    Ok(())
}

/// Serves tickets on connection 1, piece by piece: what is written, and how many tickets are given.
pub fn serve_pieces(
    alloc: Global,
    hasher: RandomState,
    limits: Limits,
    pieces: &[Piece],
) -> Result<(Vec<u8>, u64), ServingError>
    ensures { IfOk result (λ served. AreServedOnce limits (map event_of pieces.now) served.0.items served.1) }
{
    // from the answers of the table to those of performing each distinct request once
    ft_orb::laws::tables_act_once::<Tickets>();
    ft_orb::laws::plays_write_their_outputs();
    let tickets = Tickets::new(alloc)?;
    let retention = Retention {
        capacity: 100,
        share: 10,
    };
    let mut server = Server::new(alloc, tickets, limits, retention, hasher);
    server.connect(1)?;
    let mut out = Vec::new(alloc);
    feed_all(&mut server, pieces, &mut out)?;
    Ok((out, server.servant().given()))
}
