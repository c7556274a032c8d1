//! Puts one to sixteen fields.
ghost use Rattle.asn1_rs.specs.Fields.{taken_in};
ghost use Rattle.asn1_rs.specs.Structs.{none_put, put_then};
ghost use Rattle.asn1_rs.specs.Structs.Flat.{PutsRow};

use crate::kinds::fields::Fields;
use crate::structs::field::WritesField;
use asn1_headers::error::SerializeResult;

/// Puts no field.
#[tactic(auto, using(crate::specs::Laws::Structs::Puts::both_ways))]
fn put0(fields: &mut Fields) -> SerializeResult<()>
    ensures { PutsRow none_put (taken_in fields.old) (taken_in fields.new) result }
{
    Ok(())
}

// written by tools/leaves.py: from here
/// Puts the fields: in their order, or from the last to the first where they are put before the octets of a buffer.
#[inline(always)]
#[tactic(auto, using(crate::specs::Laws::Structs::Puts::both_ways))]
pub fn put1<A: WritesField>(a: &A, fields: &mut Fields) -> SerializeResult<()>
    ensures { PutsRow (put_then A.field_writing a.now none_put) (taken_in fields.old)
        (taken_in fields.new) result }
{
    if fields.goes_back() {
        return match put0(fields) {
            Ok(()) => a.put_field(fields),
            Err(e) => Err(e),
        };
    }
    match a.put_field(fields) {
        Ok(()) => put0(fields),
        Err(e) => Err(e),
    }
}

/// Puts the fields: in their order, or from the last to the first where they are put before the octets of a buffer.
#[inline(always)]
#[tactic(auto, using(crate::specs::Laws::Structs::Puts::both_ways))]
pub fn put2<A: WritesField, B: WritesField>(
    a: &A,
    b: &B,
    fields: &mut Fields,
) -> SerializeResult<()>
    ensures { PutsRow (put_then A.field_writing a.now (put_then B.field_writing b.now none_put))
        (taken_in fields.old) (taken_in fields.new) result }
{
    if fields.goes_back() {
        return match put1(b, fields) {
            Ok(()) => a.put_field(fields),
            Err(e) => Err(e),
        };
    }
    match a.put_field(fields) {
        Ok(()) => put1(b, fields),
        Err(e) => Err(e),
    }
}

/// Puts the fields: in their order, or from the last to the first where they are put before the octets of a buffer.
#[inline(always)]
#[tactic(auto, using(crate::specs::Laws::Structs::Puts::both_ways))]
pub fn put3<A: WritesField, B: WritesField, C: WritesField>(
    a: &A,
    b: &B,
    c: &C,
    fields: &mut Fields,
) -> SerializeResult<()>
    ensures { PutsRow (put_then A.field_writing a.now (put_then B.field_writing b.now
        (put_then C.field_writing c.now none_put))) (taken_in fields.old) (taken_in fields.new)
        result }
{
    if fields.goes_back() {
        return match put2(b, c, fields) {
            Ok(()) => a.put_field(fields),
            Err(e) => Err(e),
        };
    }
    match a.put_field(fields) {
        Ok(()) => put2(b, c, fields),
        Err(e) => Err(e),
    }
}

/// Puts the fields: in their order, or from the last to the first where they are put before the octets of a buffer.
#[inline(always)]
#[tactic(auto, using(crate::specs::Laws::Structs::Puts::both_ways))]
pub fn put4<A: WritesField, B: WritesField, C: WritesField, D: WritesField>(
    a: &A,
    b: &B,
    c: &C,
    d: &D,
    fields: &mut Fields,
) -> SerializeResult<()>
    ensures { PutsRow (put_then A.field_writing a.now (put_then B.field_writing b.now
        (put_then C.field_writing c.now (put_then D.field_writing d.now none_put))))
        (taken_in fields.old) (taken_in fields.new) result }
{
    if fields.goes_back() {
        return match put3(b, c, d, fields) {
            Ok(()) => a.put_field(fields),
            Err(e) => Err(e),
        };
    }
    match a.put_field(fields) {
        Ok(()) => put3(b, c, d, fields),
        Err(e) => Err(e),
    }
}

/// Puts the fields: in their order, or from the last to the first where they are put before the octets of a buffer.
#[inline(always)]
#[tactic(auto, using(crate::specs::Laws::Structs::Puts::both_ways))]
pub fn put5<A: WritesField, B: WritesField, C: WritesField, D: WritesField, E: WritesField>(
    a: &A,
    b: &B,
    c: &C,
    d: &D,
    e: &E,
    fields: &mut Fields,
) -> SerializeResult<()>
    ensures { PutsRow (put_then A.field_writing a.now (put_then B.field_writing b.now
        (put_then C.field_writing c.now (put_then D.field_writing d.now
        (put_then E.field_writing e.now none_put))))) (taken_in fields.old) (taken_in fields.new)
        result }
{
    if fields.goes_back() {
        return match put4(b, c, d, e, fields) {
            Ok(()) => a.put_field(fields),
            Err(e) => Err(e),
        };
    }
    match a.put_field(fields) {
        Ok(()) => put4(b, c, d, e, fields),
        Err(e) => Err(e),
    }
}

/// Puts the fields: in their order, or from the last to the first where they are put before the octets of a buffer.
#[inline(always)]
#[tactic(auto, using(crate::specs::Laws::Structs::Puts::both_ways))]
pub fn put6<
    A: WritesField,
    B: WritesField,
    C: WritesField,
    D: WritesField,
    E: WritesField,
    F: WritesField,
>(a: &A, b: &B, c: &C, d: &D, e: &E, f: &F, fields: &mut Fields) -> SerializeResult<()>
    ensures { PutsRow (put_then A.field_writing a.now (put_then B.field_writing b.now
        (put_then C.field_writing c.now (put_then D.field_writing d.now
        (put_then E.field_writing e.now (put_then F.field_writing f.now none_put))))))
        (taken_in fields.old) (taken_in fields.new) result }
{
    if fields.goes_back() {
        return match put5(b, c, d, e, f, fields) {
            Ok(()) => a.put_field(fields),
            Err(e) => Err(e),
        };
    }
    match a.put_field(fields) {
        Ok(()) => put5(b, c, d, e, f, fields),
        Err(e) => Err(e),
    }
}

/// Puts the fields: in their order, or from the last to the first where they are put before the octets of a buffer.
#[inline(always)]
#[tactic(auto, using(crate::specs::Laws::Structs::Puts::both_ways))]
pub fn put7<
    A: WritesField,
    B: WritesField,
    C: WritesField,
    D: WritesField,
    E: WritesField,
    F: WritesField,
    G: WritesField,
>(a: &A, b: &B, c: &C, d: &D, e: &E, f: &F, g: &G, fields: &mut Fields) -> SerializeResult<()>
    ensures { PutsRow (put_then A.field_writing a.now (put_then B.field_writing b.now
        (put_then C.field_writing c.now (put_then D.field_writing d.now
        (put_then E.field_writing e.now (put_then F.field_writing f.now
        (put_then G.field_writing g.now none_put))))))) (taken_in fields.old)
        (taken_in fields.new) result }
{
    if fields.goes_back() {
        return match put6(b, c, d, e, f, g, fields) {
            Ok(()) => a.put_field(fields),
            Err(e) => Err(e),
        };
    }
    match a.put_field(fields) {
        Ok(()) => put6(b, c, d, e, f, g, fields),
        Err(e) => Err(e),
    }
}

/// Puts the fields: in their order, or from the last to the first where they are put before the octets of a buffer.
#[inline(always)]
#[tactic(auto, using(crate::specs::Laws::Structs::Puts::both_ways))]
pub fn put8<
    A: WritesField,
    B: WritesField,
    C: WritesField,
    D: WritesField,
    E: WritesField,
    F: WritesField,
    G: WritesField,
    H: WritesField,
>(
    a: &A,
    b: &B,
    c: &C,
    d: &D,
    e: &E,
    f: &F,
    g: &G,
    h: &H,
    fields: &mut Fields,
) -> SerializeResult<()>
    ensures { PutsRow (put_then A.field_writing a.now (put_then B.field_writing b.now
        (put_then C.field_writing c.now (put_then D.field_writing d.now
        (put_then E.field_writing e.now (put_then F.field_writing f.now
        (put_then G.field_writing g.now (put_then H.field_writing h.now none_put))))))))
        (taken_in fields.old) (taken_in fields.new) result }
{
    if fields.goes_back() {
        return match put7(b, c, d, e, f, g, h, fields) {
            Ok(()) => a.put_field(fields),
            Err(e) => Err(e),
        };
    }
    match a.put_field(fields) {
        Ok(()) => put7(b, c, d, e, f, g, h, fields),
        Err(e) => Err(e),
    }
}

/// Puts the fields: in their order, or from the last to the first where they are put before the octets of a buffer.
#[inline(always)]
#[tactic(auto, using(crate::specs::Laws::Structs::Puts::both_ways))]
pub fn put9<
    A: WritesField,
    B: WritesField,
    C: WritesField,
    D: WritesField,
    E: WritesField,
    F: WritesField,
    G: WritesField,
    H: WritesField,
    I: WritesField,
>(
    a: &A,
    b: &B,
    c: &C,
    d: &D,
    e: &E,
    f: &F,
    g: &G,
    h: &H,
    i: &I,
    fields: &mut Fields,
) -> SerializeResult<()>
    ensures { PutsRow (put_then A.field_writing a.now (put_then B.field_writing b.now
        (put_then C.field_writing c.now (put_then D.field_writing d.now
        (put_then E.field_writing e.now (put_then F.field_writing f.now
        (put_then G.field_writing g.now (put_then H.field_writing h.now
        (put_then I.field_writing i.now none_put))))))))) (taken_in fields.old)
        (taken_in fields.new) result }
{
    if fields.goes_back() {
        return match put8(b, c, d, e, f, g, h, i, fields) {
            Ok(()) => a.put_field(fields),
            Err(e) => Err(e),
        };
    }
    match a.put_field(fields) {
        Ok(()) => put8(b, c, d, e, f, g, h, i, fields),
        Err(e) => Err(e),
    }
}

/// Puts the fields: in their order, or from the last to the first where they are put before the octets of a buffer.
#[inline(always)]
#[tactic(auto, using(crate::specs::Laws::Structs::Puts::both_ways))]
pub fn put10<
    A: WritesField,
    B: WritesField,
    C: WritesField,
    D: WritesField,
    E: WritesField,
    F: WritesField,
    G: WritesField,
    H: WritesField,
    I: WritesField,
    J: WritesField,
>(
    a: &A,
    b: &B,
    c: &C,
    d: &D,
    e: &E,
    f: &F,
    g: &G,
    h: &H,
    i: &I,
    j: &J,
    fields: &mut Fields,
) -> SerializeResult<()>
    ensures { PutsRow (put_then A.field_writing a.now (put_then B.field_writing b.now
        (put_then C.field_writing c.now (put_then D.field_writing d.now
        (put_then E.field_writing e.now (put_then F.field_writing f.now
        (put_then G.field_writing g.now (put_then H.field_writing h.now
        (put_then I.field_writing i.now (put_then J.field_writing j.now none_put))))))))))
        (taken_in fields.old) (taken_in fields.new) result }
{
    if fields.goes_back() {
        return match put9(b, c, d, e, f, g, h, i, j, fields) {
            Ok(()) => a.put_field(fields),
            Err(e) => Err(e),
        };
    }
    match a.put_field(fields) {
        Ok(()) => put9(b, c, d, e, f, g, h, i, j, fields),
        Err(e) => Err(e),
    }
}

/// Puts the fields: in their order, or from the last to the first where they are put before the octets of a buffer.
#[inline(always)]
#[tactic(auto, using(crate::specs::Laws::Structs::Puts::both_ways))]
pub fn put11<
    A: WritesField,
    B: WritesField,
    C: WritesField,
    D: WritesField,
    E: WritesField,
    F: WritesField,
    G: WritesField,
    H: WritesField,
    I: WritesField,
    J: WritesField,
    K: WritesField,
>(
    a: &A,
    b: &B,
    c: &C,
    d: &D,
    e: &E,
    f: &F,
    g: &G,
    h: &H,
    i: &I,
    j: &J,
    k: &K,
    fields: &mut Fields,
) -> SerializeResult<()>
    ensures { PutsRow (put_then A.field_writing a.now (put_then B.field_writing b.now
        (put_then C.field_writing c.now (put_then D.field_writing d.now
        (put_then E.field_writing e.now (put_then F.field_writing f.now
        (put_then G.field_writing g.now (put_then H.field_writing h.now
        (put_then I.field_writing i.now (put_then J.field_writing j.now
        (put_then K.field_writing k.now none_put))))))))))) (taken_in fields.old)
        (taken_in fields.new) result }
{
    if fields.goes_back() {
        return match put10(b, c, d, e, f, g, h, i, j, k, fields) {
            Ok(()) => a.put_field(fields),
            Err(e) => Err(e),
        };
    }
    match a.put_field(fields) {
        Ok(()) => put10(b, c, d, e, f, g, h, i, j, k, fields),
        Err(e) => Err(e),
    }
}

/// Puts the fields: in their order, or from the last to the first where they are put before the octets of a buffer.
#[inline(always)]
#[tactic(auto, using(crate::specs::Laws::Structs::Puts::both_ways))]
pub fn put12<
    A: WritesField,
    B: WritesField,
    C: WritesField,
    D: WritesField,
    E: WritesField,
    F: WritesField,
    G: WritesField,
    H: WritesField,
    I: WritesField,
    J: WritesField,
    K: WritesField,
    L: WritesField,
>(
    a: &A,
    b: &B,
    c: &C,
    d: &D,
    e: &E,
    f: &F,
    g: &G,
    h: &H,
    i: &I,
    j: &J,
    k: &K,
    l: &L,
    fields: &mut Fields,
) -> SerializeResult<()>
    ensures { PutsRow (put_then A.field_writing a.now (put_then B.field_writing b.now
        (put_then C.field_writing c.now (put_then D.field_writing d.now
        (put_then E.field_writing e.now (put_then F.field_writing f.now
        (put_then G.field_writing g.now (put_then H.field_writing h.now
        (put_then I.field_writing i.now (put_then J.field_writing j.now
        (put_then K.field_writing k.now (put_then L.field_writing l.now none_put))))))))))))
        (taken_in fields.old) (taken_in fields.new) result }
{
    if fields.goes_back() {
        return match put11(b, c, d, e, f, g, h, i, j, k, l, fields) {
            Ok(()) => a.put_field(fields),
            Err(e) => Err(e),
        };
    }
    match a.put_field(fields) {
        Ok(()) => put11(b, c, d, e, f, g, h, i, j, k, l, fields),
        Err(e) => Err(e),
    }
}

/// Puts the fields: in their order, or from the last to the first where they are put before the octets of a buffer.
#[inline(always)]
#[tactic(auto, using(crate::specs::Laws::Structs::Puts::both_ways))]
pub fn put13<
    A: WritesField,
    B: WritesField,
    C: WritesField,
    D: WritesField,
    E: WritesField,
    F: WritesField,
    G: WritesField,
    H: WritesField,
    I: WritesField,
    J: WritesField,
    K: WritesField,
    L: WritesField,
    M: WritesField,
>(
    a: &A,
    b: &B,
    c: &C,
    d: &D,
    e: &E,
    f: &F,
    g: &G,
    h: &H,
    i: &I,
    j: &J,
    k: &K,
    l: &L,
    m: &M,
    fields: &mut Fields,
) -> SerializeResult<()>
    ensures { PutsRow (put_then A.field_writing a.now (put_then B.field_writing b.now
        (put_then C.field_writing c.now (put_then D.field_writing d.now
        (put_then E.field_writing e.now (put_then F.field_writing f.now
        (put_then G.field_writing g.now (put_then H.field_writing h.now
        (put_then I.field_writing i.now (put_then J.field_writing j.now
        (put_then K.field_writing k.now (put_then L.field_writing l.now
        (put_then M.field_writing m.now none_put))))))))))))) (taken_in fields.old)
        (taken_in fields.new) result }
{
    if fields.goes_back() {
        return match put12(b, c, d, e, f, g, h, i, j, k, l, m, fields) {
            Ok(()) => a.put_field(fields),
            Err(e) => Err(e),
        };
    }
    match a.put_field(fields) {
        Ok(()) => put12(b, c, d, e, f, g, h, i, j, k, l, m, fields),
        Err(e) => Err(e),
    }
}

/// Puts the fields: in their order, or from the last to the first where they are put before the octets of a buffer.
#[inline(always)]
#[tactic(auto, using(crate::specs::Laws::Structs::Puts::both_ways))]
pub fn put14<
    A: WritesField,
    B: WritesField,
    C: WritesField,
    D: WritesField,
    E: WritesField,
    F: WritesField,
    G: WritesField,
    H: WritesField,
    I: WritesField,
    J: WritesField,
    K: WritesField,
    L: WritesField,
    M: WritesField,
    N: WritesField,
>(
    a: &A,
    b: &B,
    c: &C,
    d: &D,
    e: &E,
    f: &F,
    g: &G,
    h: &H,
    i: &I,
    j: &J,
    k: &K,
    l: &L,
    m: &M,
    n: &N,
    fields: &mut Fields,
) -> SerializeResult<()>
    ensures { PutsRow (put_then A.field_writing a.now (put_then B.field_writing b.now
        (put_then C.field_writing c.now (put_then D.field_writing d.now
        (put_then E.field_writing e.now (put_then F.field_writing f.now
        (put_then G.field_writing g.now (put_then H.field_writing h.now
        (put_then I.field_writing i.now (put_then J.field_writing j.now
        (put_then K.field_writing k.now (put_then L.field_writing l.now
        (put_then M.field_writing m.now (put_then N.field_writing n.now none_put))))))))))))))
        (taken_in fields.old) (taken_in fields.new) result }
{
    if fields.goes_back() {
        return match put13(b, c, d, e, f, g, h, i, j, k, l, m, n, fields) {
            Ok(()) => a.put_field(fields),
            Err(e) => Err(e),
        };
    }
    match a.put_field(fields) {
        Ok(()) => put13(b, c, d, e, f, g, h, i, j, k, l, m, n, fields),
        Err(e) => Err(e),
    }
}

/// Puts the fields: in their order, or from the last to the first where they are put before the octets of a buffer.
#[inline(always)]
#[tactic(auto, using(crate::specs::Laws::Structs::Puts::both_ways))]
pub fn put15<
    A: WritesField,
    B: WritesField,
    C: WritesField,
    D: WritesField,
    E: WritesField,
    F: WritesField,
    G: WritesField,
    H: WritesField,
    I: WritesField,
    J: WritesField,
    K: WritesField,
    L: WritesField,
    M: WritesField,
    N: WritesField,
    O: WritesField,
>(
    a: &A,
    b: &B,
    c: &C,
    d: &D,
    e: &E,
    f: &F,
    g: &G,
    h: &H,
    i: &I,
    j: &J,
    k: &K,
    l: &L,
    m: &M,
    n: &N,
    o: &O,
    fields: &mut Fields,
) -> SerializeResult<()>
    ensures { PutsRow (put_then A.field_writing a.now (put_then B.field_writing b.now
        (put_then C.field_writing c.now (put_then D.field_writing d.now
        (put_then E.field_writing e.now (put_then F.field_writing f.now
        (put_then G.field_writing g.now (put_then H.field_writing h.now
        (put_then I.field_writing i.now (put_then J.field_writing j.now
        (put_then K.field_writing k.now (put_then L.field_writing l.now
        (put_then M.field_writing m.now (put_then N.field_writing n.now
        (put_then O.field_writing o.now none_put))))))))))))))) (taken_in fields.old)
        (taken_in fields.new) result }
{
    if fields.goes_back() {
        return match put14(b, c, d, e, f, g, h, i, j, k, l, m, n, o, fields) {
            Ok(()) => a.put_field(fields),
            Err(e) => Err(e),
        };
    }
    match a.put_field(fields) {
        Ok(()) => put14(b, c, d, e, f, g, h, i, j, k, l, m, n, o, fields),
        Err(e) => Err(e),
    }
}

/// Puts the fields: in their order, or from the last to the first where they are put before the octets of a buffer.
#[inline(always)]
#[tactic(auto, using(crate::specs::Laws::Structs::Puts::both_ways))]
pub fn put16<
    A: WritesField,
    B: WritesField,
    C: WritesField,
    D: WritesField,
    E: WritesField,
    F: WritesField,
    G: WritesField,
    H: WritesField,
    I: WritesField,
    J: WritesField,
    K: WritesField,
    L: WritesField,
    M: WritesField,
    N: WritesField,
    O: WritesField,
    P: WritesField,
>(
    a: &A,
    b: &B,
    c: &C,
    d: &D,
    e: &E,
    f: &F,
    g: &G,
    h: &H,
    i: &I,
    j: &J,
    k: &K,
    l: &L,
    m: &M,
    n: &N,
    o: &O,
    p: &P,
    fields: &mut Fields,
) -> SerializeResult<()>
    ensures { PutsRow (put_then A.field_writing a.now (put_then B.field_writing b.now
        (put_then C.field_writing c.now (put_then D.field_writing d.now
        (put_then E.field_writing e.now (put_then F.field_writing f.now
        (put_then G.field_writing g.now (put_then H.field_writing h.now
        (put_then I.field_writing i.now (put_then J.field_writing j.now
        (put_then K.field_writing k.now (put_then L.field_writing l.now
        (put_then M.field_writing m.now (put_then N.field_writing n.now
        (put_then O.field_writing o.now (put_then P.field_writing p.now none_put))))))))))))))))
        (taken_in fields.old) (taken_in fields.new) result }
{
    if fields.goes_back() {
        return match put15(b, c, d, e, f, g, h, i, j, k, l, m, n, o, p, fields) {
            Ok(()) => a.put_field(fields),
            Err(e) => Err(e),
        };
    }
    match a.put_field(fields) {
        Ok(()) => put15(b, c, d, e, f, g, h, i, j, k, l, m, n, o, p, fields),
        Err(e) => Err(e),
    }
}
// written by tools/leaves.py: to here
