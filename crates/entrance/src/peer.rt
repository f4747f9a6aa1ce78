//! Where clients come from.

use std::fmt;
use std::net::{IpAddr, SocketAddr};

/// Where a client comes from.
#[derive(Clone, Copy, Debug)]
pub enum Peer {
    /// An address over TCP.
    Address(SocketAddr),
    /// A tunnel, as an account of this machine.
    Tunnel,
}

impl Peer {
    /// Makes the place of an address. One of IPv4 that an IPv6 address has in it is that of IPv4.
    pub(crate) fn of(address: SocketAddr) -> Self {
        Peer::Address(SocketAddr::new(address.ip().to_canonical(), address.port()))
    }

    /// Gives a number, which is the same for all that count as one: of an IPv4 address its bits. Of any other IPv6 address it is
    /// the first half, since the whole of a network is as easily had as one address of it. That of tunnels is of no address.
    pub(crate) fn number(self) -> u64 {
        match self {
            Peer::Address(address) => number_of(address.ip()),
            Peer::Tunnel => u64::MAX,
        }
    }

    /// Says whether it is an address, of which there are only so many sessions.
    pub(crate) fn is_address(self) -> bool {
        matches!(self, Peer::Address(_))
    }
}

/// Makes a number of an address.
fn number_of(address: IpAddr) -> u64 {
    match address.to_canonical() {
        IpAddr::V4(address) => u64::from(address.to_bits()),
        IpAddr::V6(address) => (address.to_bits() >> 64) as u64,
    }
}

impl fmt::Display for Peer {
    fn fmt<W: fmt::Write>(&self, f: &mut fmt::Formatter<W>) -> fmt::Result {
        match self {
            Peer::Address(address) => write!(f, "{address}"),
            Peer::Tunnel => write!(f, "a tunnel"),
        }
    }
}
