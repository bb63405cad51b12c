//! The order of a listing.
ghost use Rattle.std.specs.Prelude.{◌≡◌};
ghost use Rattle.ods_paths.specs.{Order.listing_cmp, Order.IsListingOrder, Lines.line};

use std::cmp::Ordering;

/// The part of an entry that a listing shows: the texts of its name and type, and its version.
#[derive(Clone, Copy)]
pub struct Shown<'a> {
    pub name: &'a [u8],
    pub kind: &'a [u8],
    pub version: u16,
}

/// Compares two entries of a listing: by name, then by type, each as bytes, then by version, in descending order.
pub fn compare(a: &Shown<'_>, b: &Shown<'_>) -> Ordering
    ensures { result ≡ listing_cmp (line a.now) (line b.now) }
{
    a.name
        .cmp(&b.name)
        .then(a.kind.cmp(&b.kind))
        .then(b.version.cmp(&a.version))
}

/// Proves that the order of a listing is total, and that only equal entries are equal in it.
pub fn is_listing_order()
    ensures { IsListingOrder }
{}
