//! The law of addresses.
ghost use Rattle.http_ends.specs.Addresses.{AddressesNameOne};

/// Bytes are the address of one host, port and base at most.
pub fn law_one_address()
    ensures { AddressesNameOne }
{}
