//! The numbers that code, definitions, tests and pages share: addresses, limits and ports.
#![tactic(auto)]

ghost use Rattle.uxn_limits.specs.Addresses.{AreAddresses};
ghost use Rattle.uxn_limits.specs.Limits.{AreLimits};
ghost use Rattle.uxn_limits.specs.Ports.{ArePorts};

pub mod addresses;
pub mod limits;
pub mod ports;

/// The constants that definitions cite are the numbers written out in the tables of the definitions.
pub fn constants_are_as_written()
    ensures addresses { AreAddresses }
    ensures limits { AreLimits }
    ensures ports { ArePorts }
{}
