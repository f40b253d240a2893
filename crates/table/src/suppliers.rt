// Whose rows are: entry 60, the supplier in force, and an entry written behind the 60 that it needs where the supplier changes.
ghost use Rattle.std.specs.Prelude.{◌≡◌, ◌∷◌, [], ◌++◌, ◌≤◌, length};
ghost use Rattle.entries.specs.Entries.{supplier_size, onto};
ghost use Rattle.table.specs.Suppliers.{supplying, change, force_behind};
ghost use Rattle.table.specs.Contents.{written};

use entries::Entry;
use kinds::Kind;

// The supplier in force before any 60.
pub const NONE: u8 = 0;

// How many bytes a 60 has.
pub const SIZE: usize = 2;

// The 60 that names a supplier.
pub fn supplying(s: u8) -> Entry
    ensures { result ≡ supplying s }
{
    Entry {
        kind: Kind::Supplier,
        a: s,
        b: 0,
    }
}

// The supplier in force behind an entry.
pub fn behind(e: Entry, force: u8) -> u8
    ensures { result ≡ force_behind e.kind force e.a }
{
    match e.kind {
        Kind::Row(_) => force,
        Kind::Question(_) => force,
        Kind::Constraint(_) => force,
        Kind::Supplier => e.a,
    }
}

// How many bytes stand before a row of a supplier, by the supplier in force: those of a 60, or none.
pub fn change_size(force: u8, s: u8) -> usize
    ensures { (result ≡ length (written (change force s))) × (result ≤ supplier_size) }
{
    if s == force {
        return 0;
    }
    entries::size_of(supplying(s))
}

// An entry's bytes, behind those of a 60 where its supplier is another than the one in force, written onto the front of a lent output where they fit; their
// number comes back either way.
pub fn put(out: &mut [u8], force: u8, s: u8, e: Entry) -> usize
    ensures { (result ≡ length (written (change force s ++ (e ∷ [])))) ×
        (out.new ≡ onto (written (change force s ++ (e ∷ []))) out.old) }
{
    let size = change_size(force, s) + entries::size_of(e);
    if out.len() < size {
        return size;
    }
    if s == force {
        return entries::put(out, e);
    }
    let n = entries::put(out, supplying(s));
    n + entries::put(&mut out[n..], e)
}
