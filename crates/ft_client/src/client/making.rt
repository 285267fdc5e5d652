//! What a client is made with.

ghost use Rattle.std.specs.Prelude.{◌≡◌};

use crate::client::FtClient;
use giop_core::Version;
use giop_frames::Limits;

impl FtClient {
    ghost use Rattle.ft_client.specs.Clients.{Client};
    ghost use Rattle.ft_client.specs.Made.{is_unused, made_with};
    ghost use Rattle.ft_client.specs.Standing.{FtStands};

    /// The version of its typed calls and of its CancelRequests.
    pub fn version(&self) -> Version
        ensures { (m : Client) → FtStands self.now m → result ≡ m.version }
    {
        self.version
    }

    /// The limits that its links keep to.
    pub fn limits(&self) -> Limits
        ensures { (m : Client) → FtStands self.now m → result ≡ m.limits }
    {
        self.limits
    }

    /// Whether it gave no number, took none up and skipped none, and is not connected.
    pub fn is_unused(&self) -> bool
        ensures { (m : Client) → FtStands self.now m → result ≡ is_unused m }
    {
        self.last == 0 && !self.is_connected() && self.pending.is_empty()
    }

    /// From now on a client that is unused is one that was made with this version and these limits. Nothing changes in any
    /// other. The answer is whether it was unused.
    pub fn make_with(&mut self, version: Version, limits: Limits) -> bool
        ensures answer { (m : Client) → FtStands self.old m → result ≡ is_unused m }
        ensures stands { (m : Client) → FtStands self.old m → FtStands self.new (made_with version limits m) }
    {
        if !self.is_unused() {
            return false;
        }
        self.version = version;
        self.limits = limits;
        true
    }
}
