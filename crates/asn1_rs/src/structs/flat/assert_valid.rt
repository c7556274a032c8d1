//! States of one to sixteen fields in hand that their values are those of their types.

use crate::structs::field::WritesField;

// written by tools/leaves.py: from here
/// States of the fields in hand that their values are those of their types.
pub fn assert_valid1<A: WritesField>(a: &A)
    ensures { A.has_a_value a.now × Unit {0} }
{
    a.assert_field_valid();
}

/// States of the fields in hand that their values are those of their types.
pub fn assert_valid2<A: WritesField, B: WritesField>(a: &A, b: &B)
    ensures { A.has_a_value a.now × B.has_a_value b.now × Unit {0} }
{
    a.assert_field_valid();
    b.assert_field_valid();
}

/// States of the fields in hand that their values are those of their types.
pub fn assert_valid3<A: WritesField, B: WritesField, C: WritesField>(a: &A, b: &B, c: &C)
    ensures { A.has_a_value a.now × B.has_a_value b.now × C.has_a_value c.now × Unit {0} }
{
    a.assert_field_valid();
    b.assert_field_valid();
    c.assert_field_valid();
}

/// States of the fields in hand that their values are those of their types.
pub fn assert_valid4<A: WritesField, B: WritesField, C: WritesField, D: WritesField>(
    a: &A,
    b: &B,
    c: &C,
    d: &D,
)
    ensures { A.has_a_value a.now × B.has_a_value b.now × C.has_a_value c.now ×
        D.has_a_value d.now × Unit {0} }
{
    a.assert_field_valid();
    b.assert_field_valid();
    c.assert_field_valid();
    d.assert_field_valid();
}

/// States of the fields in hand that their values are those of their types.
pub fn assert_valid5<
    A: WritesField,
    B: WritesField,
    C: WritesField,
    D: WritesField,
    E: WritesField,
>(a: &A, b: &B, c: &C, d: &D, e: &E)
    ensures { A.has_a_value a.now × B.has_a_value b.now × C.has_a_value c.now ×
        D.has_a_value d.now × E.has_a_value e.now × Unit {0} }
{
    a.assert_field_valid();
    b.assert_field_valid();
    c.assert_field_valid();
    d.assert_field_valid();
    e.assert_field_valid();
}

/// States of the fields in hand that their values are those of their types.
pub fn assert_valid6<
    A: WritesField,
    B: WritesField,
    C: WritesField,
    D: WritesField,
    E: WritesField,
    F: WritesField,
>(a: &A, b: &B, c: &C, d: &D, e: &E, f: &F)
    ensures { A.has_a_value a.now × B.has_a_value b.now × C.has_a_value c.now ×
        D.has_a_value d.now × E.has_a_value e.now × F.has_a_value f.now × Unit {0} }
{
    a.assert_field_valid();
    b.assert_field_valid();
    c.assert_field_valid();
    d.assert_field_valid();
    e.assert_field_valid();
    f.assert_field_valid();
}

/// States of the fields in hand that their values are those of their types.
pub fn assert_valid7<
    A: WritesField,
    B: WritesField,
    C: WritesField,
    D: WritesField,
    E: WritesField,
    F: WritesField,
    G: WritesField,
>(a: &A, b: &B, c: &C, d: &D, e: &E, f: &F, g: &G)
    ensures { A.has_a_value a.now × B.has_a_value b.now × C.has_a_value c.now ×
        D.has_a_value d.now × E.has_a_value e.now × F.has_a_value f.now × G.has_a_value g.now ×
        Unit {0} }
{
    a.assert_field_valid();
    b.assert_field_valid();
    c.assert_field_valid();
    d.assert_field_valid();
    e.assert_field_valid();
    f.assert_field_valid();
    g.assert_field_valid();
}

/// States of the fields in hand that their values are those of their types.
pub fn assert_valid8<
    A: WritesField,
    B: WritesField,
    C: WritesField,
    D: WritesField,
    E: WritesField,
    F: WritesField,
    G: WritesField,
    H: WritesField,
>(a: &A, b: &B, c: &C, d: &D, e: &E, f: &F, g: &G, h: &H)
    ensures { A.has_a_value a.now × B.has_a_value b.now × C.has_a_value c.now ×
        D.has_a_value d.now × E.has_a_value e.now × F.has_a_value f.now × G.has_a_value g.now ×
        H.has_a_value h.now × Unit {0} }
{
    a.assert_field_valid();
    b.assert_field_valid();
    c.assert_field_valid();
    d.assert_field_valid();
    e.assert_field_valid();
    f.assert_field_valid();
    g.assert_field_valid();
    h.assert_field_valid();
}

/// States of the fields in hand that their values are those of their types.
pub fn assert_valid9<
    A: WritesField,
    B: WritesField,
    C: WritesField,
    D: WritesField,
    E: WritesField,
    F: WritesField,
    G: WritesField,
    H: WritesField,
    I: WritesField,
>(a: &A, b: &B, c: &C, d: &D, e: &E, f: &F, g: &G, h: &H, i: &I)
    ensures { A.has_a_value a.now × B.has_a_value b.now × C.has_a_value c.now ×
        D.has_a_value d.now × E.has_a_value e.now × F.has_a_value f.now × G.has_a_value g.now ×
        H.has_a_value h.now × I.has_a_value i.now × Unit {0} }
{
    a.assert_field_valid();
    b.assert_field_valid();
    c.assert_field_valid();
    d.assert_field_valid();
    e.assert_field_valid();
    f.assert_field_valid();
    g.assert_field_valid();
    h.assert_field_valid();
    i.assert_field_valid();
}

/// States of the fields in hand that their values are those of their types.
pub fn assert_valid10<
    A: WritesField,
    B: WritesField,
    C: WritesField,
    D: WritesField,
    E: WritesField,
    F: WritesField,
    G: WritesField,
    H: WritesField,
    I: WritesField,
    J: WritesField,
>(a: &A, b: &B, c: &C, d: &D, e: &E, f: &F, g: &G, h: &H, i: &I, j: &J)
    ensures { A.has_a_value a.now × B.has_a_value b.now × C.has_a_value c.now ×
        D.has_a_value d.now × E.has_a_value e.now × F.has_a_value f.now × G.has_a_value g.now ×
        H.has_a_value h.now × I.has_a_value i.now × J.has_a_value j.now × Unit {0} }
{
    a.assert_field_valid();
    b.assert_field_valid();
    c.assert_field_valid();
    d.assert_field_valid();
    e.assert_field_valid();
    f.assert_field_valid();
    g.assert_field_valid();
    h.assert_field_valid();
    i.assert_field_valid();
    j.assert_field_valid();
}

/// States of the fields in hand that their values are those of their types.
pub fn assert_valid11<
    A: WritesField,
    B: WritesField,
    C: WritesField,
    D: WritesField,
    E: WritesField,
    F: WritesField,
    G: WritesField,
    H: WritesField,
    I: WritesField,
    J: WritesField,
    K: WritesField,
>(a: &A, b: &B, c: &C, d: &D, e: &E, f: &F, g: &G, h: &H, i: &I, j: &J, k: &K)
    ensures { A.has_a_value a.now × B.has_a_value b.now × C.has_a_value c.now ×
        D.has_a_value d.now × E.has_a_value e.now × F.has_a_value f.now × G.has_a_value g.now ×
        H.has_a_value h.now × I.has_a_value i.now × J.has_a_value j.now × K.has_a_value k.now ×
        Unit {0} }
{
    a.assert_field_valid();
    b.assert_field_valid();
    c.assert_field_valid();
    d.assert_field_valid();
    e.assert_field_valid();
    f.assert_field_valid();
    g.assert_field_valid();
    h.assert_field_valid();
    i.assert_field_valid();
    j.assert_field_valid();
    k.assert_field_valid();
}

/// States of the fields in hand that their values are those of their types.
pub fn assert_valid12<
    A: WritesField,
    B: WritesField,
    C: WritesField,
    D: WritesField,
    E: WritesField,
    F: WritesField,
    G: WritesField,
    H: WritesField,
    I: WritesField,
    J: WritesField,
    K: WritesField,
    L: WritesField,
>(a: &A, b: &B, c: &C, d: &D, e: &E, f: &F, g: &G, h: &H, i: &I, j: &J, k: &K, l: &L)
    ensures { A.has_a_value a.now × B.has_a_value b.now × C.has_a_value c.now ×
        D.has_a_value d.now × E.has_a_value e.now × F.has_a_value f.now × G.has_a_value g.now ×
        H.has_a_value h.now × I.has_a_value i.now × J.has_a_value j.now × K.has_a_value k.now ×
        L.has_a_value l.now × Unit {0} }
{
    a.assert_field_valid();
    b.assert_field_valid();
    c.assert_field_valid();
    d.assert_field_valid();
    e.assert_field_valid();
    f.assert_field_valid();
    g.assert_field_valid();
    h.assert_field_valid();
    i.assert_field_valid();
    j.assert_field_valid();
    k.assert_field_valid();
    l.assert_field_valid();
}

/// States of the fields in hand that their values are those of their types.
pub fn assert_valid13<
    A: WritesField,
    B: WritesField,
    C: WritesField,
    D: WritesField,
    E: WritesField,
    F: WritesField,
    G: WritesField,
    H: WritesField,
    I: WritesField,
    J: WritesField,
    K: WritesField,
    L: WritesField,
    M: WritesField,
>(a: &A, b: &B, c: &C, d: &D, e: &E, f: &F, g: &G, h: &H, i: &I, j: &J, k: &K, l: &L, m: &M)
    ensures { A.has_a_value a.now × B.has_a_value b.now × C.has_a_value c.now ×
        D.has_a_value d.now × E.has_a_value e.now × F.has_a_value f.now × G.has_a_value g.now ×
        H.has_a_value h.now × I.has_a_value i.now × J.has_a_value j.now × K.has_a_value k.now ×
        L.has_a_value l.now × M.has_a_value m.now × Unit {0} }
{
    a.assert_field_valid();
    b.assert_field_valid();
    c.assert_field_valid();
    d.assert_field_valid();
    e.assert_field_valid();
    f.assert_field_valid();
    g.assert_field_valid();
    h.assert_field_valid();
    i.assert_field_valid();
    j.assert_field_valid();
    k.assert_field_valid();
    l.assert_field_valid();
    m.assert_field_valid();
}

/// States of the fields in hand that their values are those of their types.
pub fn assert_valid14<
    A: WritesField,
    B: WritesField,
    C: WritesField,
    D: WritesField,
    E: WritesField,
    F: WritesField,
    G: WritesField,
    H: WritesField,
    I: WritesField,
    J: WritesField,
    K: WritesField,
    L: WritesField,
    M: WritesField,
    N: WritesField,
>(a: &A, b: &B, c: &C, d: &D, e: &E, f: &F, g: &G, h: &H, i: &I, j: &J, k: &K, l: &L, m: &M, n: &N)
    ensures { A.has_a_value a.now × B.has_a_value b.now × C.has_a_value c.now ×
        D.has_a_value d.now × E.has_a_value e.now × F.has_a_value f.now × G.has_a_value g.now ×
        H.has_a_value h.now × I.has_a_value i.now × J.has_a_value j.now × K.has_a_value k.now ×
        L.has_a_value l.now × M.has_a_value m.now × N.has_a_value n.now × Unit {0} }
{
    a.assert_field_valid();
    b.assert_field_valid();
    c.assert_field_valid();
    d.assert_field_valid();
    e.assert_field_valid();
    f.assert_field_valid();
    g.assert_field_valid();
    h.assert_field_valid();
    i.assert_field_valid();
    j.assert_field_valid();
    k.assert_field_valid();
    l.assert_field_valid();
    m.assert_field_valid();
    n.assert_field_valid();
}

/// States of the fields in hand that their values are those of their types.
pub fn assert_valid15<
    A: WritesField,
    B: WritesField,
    C: WritesField,
    D: WritesField,
    E: WritesField,
    F: WritesField,
    G: WritesField,
    H: WritesField,
    I: WritesField,
    J: WritesField,
    K: WritesField,
    L: WritesField,
    M: WritesField,
    N: WritesField,
    O: WritesField,
>(
    a: &A,
    b: &B,
    c: &C,
    d: &D,
    e: &E,
    f: &F,
    g: &G,
    h: &H,
    i: &I,
    j: &J,
    k: &K,
    l: &L,
    m: &M,
    n: &N,
    o: &O,
)
    ensures { A.has_a_value a.now × B.has_a_value b.now × C.has_a_value c.now ×
        D.has_a_value d.now × E.has_a_value e.now × F.has_a_value f.now × G.has_a_value g.now ×
        H.has_a_value h.now × I.has_a_value i.now × J.has_a_value j.now × K.has_a_value k.now ×
        L.has_a_value l.now × M.has_a_value m.now × N.has_a_value n.now × O.has_a_value o.now ×
        Unit {0} }
{
    a.assert_field_valid();
    b.assert_field_valid();
    c.assert_field_valid();
    d.assert_field_valid();
    e.assert_field_valid();
    f.assert_field_valid();
    g.assert_field_valid();
    h.assert_field_valid();
    i.assert_field_valid();
    j.assert_field_valid();
    k.assert_field_valid();
    l.assert_field_valid();
    m.assert_field_valid();
    n.assert_field_valid();
    o.assert_field_valid();
}

/// States of the fields in hand that their values are those of their types.
pub fn assert_valid16<
    A: WritesField,
    B: WritesField,
    C: WritesField,
    D: WritesField,
    E: WritesField,
    F: WritesField,
    G: WritesField,
    H: WritesField,
    I: WritesField,
    J: WritesField,
    K: WritesField,
    L: WritesField,
    M: WritesField,
    N: WritesField,
    O: WritesField,
    P: WritesField,
>(
    a: &A,
    b: &B,
    c: &C,
    d: &D,
    e: &E,
    f: &F,
    g: &G,
    h: &H,
    i: &I,
    j: &J,
    k: &K,
    l: &L,
    m: &M,
    n: &N,
    o: &O,
    p: &P,
)
    ensures { A.has_a_value a.now × B.has_a_value b.now × C.has_a_value c.now ×
        D.has_a_value d.now × E.has_a_value e.now × F.has_a_value f.now × G.has_a_value g.now ×
        H.has_a_value h.now × I.has_a_value i.now × J.has_a_value j.now × K.has_a_value k.now ×
        L.has_a_value l.now × M.has_a_value m.now × N.has_a_value n.now × O.has_a_value o.now ×
        P.has_a_value p.now × Unit {0} }
{
    a.assert_field_valid();
    b.assert_field_valid();
    c.assert_field_valid();
    d.assert_field_valid();
    e.assert_field_valid();
    f.assert_field_valid();
    g.assert_field_valid();
    h.assert_field_valid();
    i.assert_field_valid();
    j.assert_field_valid();
    k.assert_field_valid();
    l.assert_field_valid();
    m.assert_field_valid();
    n.assert_field_valid();
    o.assert_field_valid();
    p.assert_field_valid();
}
// written by tools/leaves.py: to here
