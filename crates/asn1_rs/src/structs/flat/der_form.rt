//! Whether one to sixteen fields in hand are in DER form.
ghost use Rattle.std.specs.Prelude.{◌↔◌, IsTrue};

use crate::structs::der_form::FieldTellsDer;

// written by tools/leaves.py: from here
/// Whether the fields in hand are in DER form. They are asked in turn, up to the first one that is not.
pub fn are_der_fields1<A: FieldTellsDer>(a: &A) -> bool
    ensures { IsTrue result ↔ A.in_der_form a.now × Unit {0} }
{
    a.is_der_field()
}

/// Whether the fields in hand are in DER form. They are asked in turn, up to the first one that is not.
pub fn are_der_fields2<A: FieldTellsDer, B: FieldTellsDer>(a: &A, b: &B) -> bool
    ensures { IsTrue result ↔ A.in_der_form a.now × B.in_der_form b.now × Unit {0} }
{
    a.is_der_field() && are_der_fields1(b)
}

/// Whether the fields in hand are in DER form. They are asked in turn, up to the first one that is not.
pub fn are_der_fields3<A: FieldTellsDer, B: FieldTellsDer, C: FieldTellsDer>(
    a: &A,
    b: &B,
    c: &C,
) -> bool
    ensures { IsTrue result ↔ A.in_der_form a.now × B.in_der_form b.now × C.in_der_form c.now ×
        Unit {0} }
{
    a.is_der_field() && are_der_fields2(b, c)
}

/// Whether the fields in hand are in DER form. They are asked in turn, up to the first one that is not.
pub fn are_der_fields4<A: FieldTellsDer, B: FieldTellsDer, C: FieldTellsDer, D: FieldTellsDer>(
    a: &A,
    b: &B,
    c: &C,
    d: &D,
) -> bool
    ensures { IsTrue result ↔ A.in_der_form a.now × B.in_der_form b.now × C.in_der_form c.now ×
        D.in_der_form d.now × Unit {0} }
{
    a.is_der_field() && are_der_fields3(b, c, d)
}

/// Whether the fields in hand are in DER form. They are asked in turn, up to the first one that is not.
pub fn are_der_fields5<
    A: FieldTellsDer,
    B: FieldTellsDer,
    C: FieldTellsDer,
    D: FieldTellsDer,
    E: FieldTellsDer,
>(a: &A, b: &B, c: &C, d: &D, e: &E) -> bool
    ensures { IsTrue result ↔ A.in_der_form a.now × B.in_der_form b.now × C.in_der_form c.now ×
        D.in_der_form d.now × E.in_der_form e.now × Unit {0} }
{
    a.is_der_field() && are_der_fields4(b, c, d, e)
}

/// Whether the fields in hand are in DER form. They are asked in turn, up to the first one that is not.
pub fn are_der_fields6<
    A: FieldTellsDer,
    B: FieldTellsDer,
    C: FieldTellsDer,
    D: FieldTellsDer,
    E: FieldTellsDer,
    F: FieldTellsDer,
>(a: &A, b: &B, c: &C, d: &D, e: &E, f: &F) -> bool
    ensures { IsTrue result ↔ A.in_der_form a.now × B.in_der_form b.now × C.in_der_form c.now ×
        D.in_der_form d.now × E.in_der_form e.now × F.in_der_form f.now × Unit {0} }
{
    a.is_der_field() && are_der_fields5(b, c, d, e, f)
}

/// Whether the fields in hand are in DER form. They are asked in turn, up to the first one that is not.
pub fn are_der_fields7<
    A: FieldTellsDer,
    B: FieldTellsDer,
    C: FieldTellsDer,
    D: FieldTellsDer,
    E: FieldTellsDer,
    F: FieldTellsDer,
    G: FieldTellsDer,
>(a: &A, b: &B, c: &C, d: &D, e: &E, f: &F, g: &G) -> bool
    ensures { IsTrue result ↔ A.in_der_form a.now × B.in_der_form b.now × C.in_der_form c.now ×
        D.in_der_form d.now × E.in_der_form e.now × F.in_der_form f.now × G.in_der_form g.now ×
        Unit {0} }
{
    a.is_der_field() && are_der_fields6(b, c, d, e, f, g)
}

/// Whether the fields in hand are in DER form. They are asked in turn, up to the first one that is not.
pub fn are_der_fields8<
    A: FieldTellsDer,
    B: FieldTellsDer,
    C: FieldTellsDer,
    D: FieldTellsDer,
    E: FieldTellsDer,
    F: FieldTellsDer,
    G: FieldTellsDer,
    H: FieldTellsDer,
>(a: &A, b: &B, c: &C, d: &D, e: &E, f: &F, g: &G, h: &H) -> bool
    ensures { IsTrue result ↔ A.in_der_form a.now × B.in_der_form b.now × C.in_der_form c.now ×
        D.in_der_form d.now × E.in_der_form e.now × F.in_der_form f.now × G.in_der_form g.now ×
        H.in_der_form h.now × Unit {0} }
{
    a.is_der_field() && are_der_fields7(b, c, d, e, f, g, h)
}

/// Whether the fields in hand are in DER form. They are asked in turn, up to the first one that is not.
pub fn are_der_fields9<
    A: FieldTellsDer,
    B: FieldTellsDer,
    C: FieldTellsDer,
    D: FieldTellsDer,
    E: FieldTellsDer,
    F: FieldTellsDer,
    G: FieldTellsDer,
    H: FieldTellsDer,
    I: FieldTellsDer,
>(a: &A, b: &B, c: &C, d: &D, e: &E, f: &F, g: &G, h: &H, i: &I) -> bool
    ensures { IsTrue result ↔ A.in_der_form a.now × B.in_der_form b.now × C.in_der_form c.now ×
        D.in_der_form d.now × E.in_der_form e.now × F.in_der_form f.now × G.in_der_form g.now ×
        H.in_der_form h.now × I.in_der_form i.now × Unit {0} }
{
    a.is_der_field() && are_der_fields8(b, c, d, e, f, g, h, i)
}

/// Whether the fields in hand are in DER form. They are asked in turn, up to the first one that is not.
pub fn are_der_fields10<
    A: FieldTellsDer,
    B: FieldTellsDer,
    C: FieldTellsDer,
    D: FieldTellsDer,
    E: FieldTellsDer,
    F: FieldTellsDer,
    G: FieldTellsDer,
    H: FieldTellsDer,
    I: FieldTellsDer,
    J: FieldTellsDer,
>(a: &A, b: &B, c: &C, d: &D, e: &E, f: &F, g: &G, h: &H, i: &I, j: &J) -> bool
    ensures { IsTrue result ↔ A.in_der_form a.now × B.in_der_form b.now × C.in_der_form c.now ×
        D.in_der_form d.now × E.in_der_form e.now × F.in_der_form f.now × G.in_der_form g.now ×
        H.in_der_form h.now × I.in_der_form i.now × J.in_der_form j.now × Unit {0} }
{
    a.is_der_field() && are_der_fields9(b, c, d, e, f, g, h, i, j)
}

/// Whether the fields in hand are in DER form. They are asked in turn, up to the first one that is not.
pub fn are_der_fields11<
    A: FieldTellsDer,
    B: FieldTellsDer,
    C: FieldTellsDer,
    D: FieldTellsDer,
    E: FieldTellsDer,
    F: FieldTellsDer,
    G: FieldTellsDer,
    H: FieldTellsDer,
    I: FieldTellsDer,
    J: FieldTellsDer,
    K: FieldTellsDer,
>(a: &A, b: &B, c: &C, d: &D, e: &E, f: &F, g: &G, h: &H, i: &I, j: &J, k: &K) -> bool
    ensures { IsTrue result ↔ A.in_der_form a.now × B.in_der_form b.now × C.in_der_form c.now ×
        D.in_der_form d.now × E.in_der_form e.now × F.in_der_form f.now × G.in_der_form g.now ×
        H.in_der_form h.now × I.in_der_form i.now × J.in_der_form j.now × K.in_der_form k.now ×
        Unit {0} }
{
    a.is_der_field() && are_der_fields10(b, c, d, e, f, g, h, i, j, k)
}

/// Whether the fields in hand are in DER form. They are asked in turn, up to the first one that is not.
pub fn are_der_fields12<
    A: FieldTellsDer,
    B: FieldTellsDer,
    C: FieldTellsDer,
    D: FieldTellsDer,
    E: FieldTellsDer,
    F: FieldTellsDer,
    G: FieldTellsDer,
    H: FieldTellsDer,
    I: FieldTellsDer,
    J: FieldTellsDer,
    K: FieldTellsDer,
    L: FieldTellsDer,
>(a: &A, b: &B, c: &C, d: &D, e: &E, f: &F, g: &G, h: &H, i: &I, j: &J, k: &K, l: &L) -> bool
    ensures { IsTrue result ↔ A.in_der_form a.now × B.in_der_form b.now × C.in_der_form c.now ×
        D.in_der_form d.now × E.in_der_form e.now × F.in_der_form f.now × G.in_der_form g.now ×
        H.in_der_form h.now × I.in_der_form i.now × J.in_der_form j.now × K.in_der_form k.now ×
        L.in_der_form l.now × Unit {0} }
{
    a.is_der_field() && are_der_fields11(b, c, d, e, f, g, h, i, j, k, l)
}

/// Whether the fields in hand are in DER form. They are asked in turn, up to the first one that is not.
pub fn are_der_fields13<
    A: FieldTellsDer,
    B: FieldTellsDer,
    C: FieldTellsDer,
    D: FieldTellsDer,
    E: FieldTellsDer,
    F: FieldTellsDer,
    G: FieldTellsDer,
    H: FieldTellsDer,
    I: FieldTellsDer,
    J: FieldTellsDer,
    K: FieldTellsDer,
    L: FieldTellsDer,
    M: FieldTellsDer,
>(a: &A, b: &B, c: &C, d: &D, e: &E, f: &F, g: &G, h: &H, i: &I, j: &J, k: &K, l: &L, m: &M) -> bool
    ensures { IsTrue result ↔ A.in_der_form a.now × B.in_der_form b.now × C.in_der_form c.now ×
        D.in_der_form d.now × E.in_der_form e.now × F.in_der_form f.now × G.in_der_form g.now ×
        H.in_der_form h.now × I.in_der_form i.now × J.in_der_form j.now × K.in_der_form k.now ×
        L.in_der_form l.now × M.in_der_form m.now × Unit {0} }
{
    a.is_der_field() && are_der_fields12(b, c, d, e, f, g, h, i, j, k, l, m)
}

/// Whether the fields in hand are in DER form. They are asked in turn, up to the first one that is not.
pub fn are_der_fields14<
    A: FieldTellsDer,
    B: FieldTellsDer,
    C: FieldTellsDer,
    D: FieldTellsDer,
    E: FieldTellsDer,
    F: FieldTellsDer,
    G: FieldTellsDer,
    H: FieldTellsDer,
    I: FieldTellsDer,
    J: FieldTellsDer,
    K: FieldTellsDer,
    L: FieldTellsDer,
    M: FieldTellsDer,
    N: FieldTellsDer,
>(
    a: &A,
    b: &B,
    c: &C,
    d: &D,
    e: &E,
    f: &F,
    g: &G,
    h: &H,
    i: &I,
    j: &J,
    k: &K,
    l: &L,
    m: &M,
    n: &N,
) -> bool
    ensures { IsTrue result ↔ A.in_der_form a.now × B.in_der_form b.now × C.in_der_form c.now ×
        D.in_der_form d.now × E.in_der_form e.now × F.in_der_form f.now × G.in_der_form g.now ×
        H.in_der_form h.now × I.in_der_form i.now × J.in_der_form j.now × K.in_der_form k.now ×
        L.in_der_form l.now × M.in_der_form m.now × N.in_der_form n.now × Unit {0} }
{
    a.is_der_field() && are_der_fields13(b, c, d, e, f, g, h, i, j, k, l, m, n)
}

/// Whether the fields in hand are in DER form. They are asked in turn, up to the first one that is not.
pub fn are_der_fields15<
    A: FieldTellsDer,
    B: FieldTellsDer,
    C: FieldTellsDer,
    D: FieldTellsDer,
    E: FieldTellsDer,
    F: FieldTellsDer,
    G: FieldTellsDer,
    H: FieldTellsDer,
    I: FieldTellsDer,
    J: FieldTellsDer,
    K: FieldTellsDer,
    L: FieldTellsDer,
    M: FieldTellsDer,
    N: FieldTellsDer,
    O: FieldTellsDer,
>(
    a: &A,
    b: &B,
    c: &C,
    d: &D,
    e: &E,
    f: &F,
    g: &G,
    h: &H,
    i: &I,
    j: &J,
    k: &K,
    l: &L,
    m: &M,
    n: &N,
    o: &O,
) -> bool
    ensures { IsTrue result ↔ A.in_der_form a.now × B.in_der_form b.now × C.in_der_form c.now ×
        D.in_der_form d.now × E.in_der_form e.now × F.in_der_form f.now × G.in_der_form g.now ×
        H.in_der_form h.now × I.in_der_form i.now × J.in_der_form j.now × K.in_der_form k.now ×
        L.in_der_form l.now × M.in_der_form m.now × N.in_der_form n.now × O.in_der_form o.now ×
        Unit {0} }
{
    a.is_der_field() && are_der_fields14(b, c, d, e, f, g, h, i, j, k, l, m, n, o)
}

/// Whether the fields in hand are in DER form. They are asked in turn, up to the first one that is not.
pub fn are_der_fields16<
    A: FieldTellsDer,
    B: FieldTellsDer,
    C: FieldTellsDer,
    D: FieldTellsDer,
    E: FieldTellsDer,
    F: FieldTellsDer,
    G: FieldTellsDer,
    H: FieldTellsDer,
    I: FieldTellsDer,
    J: FieldTellsDer,
    K: FieldTellsDer,
    L: FieldTellsDer,
    M: FieldTellsDer,
    N: FieldTellsDer,
    O: FieldTellsDer,
    P: FieldTellsDer,
>(
    a: &A,
    b: &B,
    c: &C,
    d: &D,
    e: &E,
    f: &F,
    g: &G,
    h: &H,
    i: &I,
    j: &J,
    k: &K,
    l: &L,
    m: &M,
    n: &N,
    o: &O,
    p: &P,
) -> bool
    ensures { IsTrue result ↔ A.in_der_form a.now × B.in_der_form b.now × C.in_der_form c.now ×
        D.in_der_form d.now × E.in_der_form e.now × F.in_der_form f.now × G.in_der_form g.now ×
        H.in_der_form h.now × I.in_der_form i.now × J.in_der_form j.now × K.in_der_form k.now ×
        L.in_der_form l.now × M.in_der_form m.now × N.in_der_form n.now × O.in_der_form o.now ×
        P.in_der_form p.now × Unit {0} }
{
    a.is_der_field() && are_der_fields15(b, c, d, e, f, g, h, i, j, k, l, m, n, o, p)
}
// written by tools/leaves.py: to here
