//! States of one to sixteen fields in hand that their values are in DER form.

use crate::structs::field::FieldIsDer;

// written by tools/leaves.py: from here
/// States of the fields in hand that their values are in DER form.
pub fn in_der1<A: FieldIsDer>(a: &A)
    ensures { A.is_in_der a.now × Unit {0} }
{
    a.field_is_der();
}

/// States of the fields in hand that their values are in DER form.
pub fn in_der2<A: FieldIsDer, B: FieldIsDer>(a: &A, b: &B)
    ensures { A.is_in_der a.now × B.is_in_der b.now × Unit {0} }
{
    a.field_is_der();
    b.field_is_der();
}

/// States of the fields in hand that their values are in DER form.
pub fn in_der3<A: FieldIsDer, B: FieldIsDer, C: FieldIsDer>(a: &A, b: &B, c: &C)
    ensures { A.is_in_der a.now × B.is_in_der b.now × C.is_in_der c.now × Unit {0} }
{
    a.field_is_der();
    b.field_is_der();
    c.field_is_der();
}

/// States of the fields in hand that their values are in DER form.
pub fn in_der4<A: FieldIsDer, B: FieldIsDer, C: FieldIsDer, D: FieldIsDer>(
    a: &A,
    b: &B,
    c: &C,
    d: &D,
)
    ensures { A.is_in_der a.now × B.is_in_der b.now × C.is_in_der c.now × D.is_in_der d.now ×
        Unit {0} }
{
    a.field_is_der();
    b.field_is_der();
    c.field_is_der();
    d.field_is_der();
}

/// States of the fields in hand that their values are in DER form.
pub fn in_der5<A: FieldIsDer, B: FieldIsDer, C: FieldIsDer, D: FieldIsDer, E: FieldIsDer>(
    a: &A,
    b: &B,
    c: &C,
    d: &D,
    e: &E,
)
    ensures { A.is_in_der a.now × B.is_in_der b.now × C.is_in_der c.now × D.is_in_der d.now ×
        E.is_in_der e.now × Unit {0} }
{
    a.field_is_der();
    b.field_is_der();
    c.field_is_der();
    d.field_is_der();
    e.field_is_der();
}

/// States of the fields in hand that their values are in DER form.
pub fn in_der6<
    A: FieldIsDer,
    B: FieldIsDer,
    C: FieldIsDer,
    D: FieldIsDer,
    E: FieldIsDer,
    F: FieldIsDer,
>(a: &A, b: &B, c: &C, d: &D, e: &E, f: &F)
    ensures { A.is_in_der a.now × B.is_in_der b.now × C.is_in_der c.now × D.is_in_der d.now ×
        E.is_in_der e.now × F.is_in_der f.now × Unit {0} }
{
    a.field_is_der();
    b.field_is_der();
    c.field_is_der();
    d.field_is_der();
    e.field_is_der();
    f.field_is_der();
}

/// States of the fields in hand that their values are in DER form.
pub fn in_der7<
    A: FieldIsDer,
    B: FieldIsDer,
    C: FieldIsDer,
    D: FieldIsDer,
    E: FieldIsDer,
    F: FieldIsDer,
    G: FieldIsDer,
>(a: &A, b: &B, c: &C, d: &D, e: &E, f: &F, g: &G)
    ensures { A.is_in_der a.now × B.is_in_der b.now × C.is_in_der c.now × D.is_in_der d.now ×
        E.is_in_der e.now × F.is_in_der f.now × G.is_in_der g.now × Unit {0} }
{
    a.field_is_der();
    b.field_is_der();
    c.field_is_der();
    d.field_is_der();
    e.field_is_der();
    f.field_is_der();
    g.field_is_der();
}

/// States of the fields in hand that their values are in DER form.
pub fn in_der8<
    A: FieldIsDer,
    B: FieldIsDer,
    C: FieldIsDer,
    D: FieldIsDer,
    E: FieldIsDer,
    F: FieldIsDer,
    G: FieldIsDer,
    H: FieldIsDer,
>(a: &A, b: &B, c: &C, d: &D, e: &E, f: &F, g: &G, h: &H)
    ensures { A.is_in_der a.now × B.is_in_der b.now × C.is_in_der c.now × D.is_in_der d.now ×
        E.is_in_der e.now × F.is_in_der f.now × G.is_in_der g.now × H.is_in_der h.now × Unit {0} }
{
    a.field_is_der();
    b.field_is_der();
    c.field_is_der();
    d.field_is_der();
    e.field_is_der();
    f.field_is_der();
    g.field_is_der();
    h.field_is_der();
}

/// States of the fields in hand that their values are in DER form.
pub fn in_der9<
    A: FieldIsDer,
    B: FieldIsDer,
    C: FieldIsDer,
    D: FieldIsDer,
    E: FieldIsDer,
    F: FieldIsDer,
    G: FieldIsDer,
    H: FieldIsDer,
    I: FieldIsDer,
>(a: &A, b: &B, c: &C, d: &D, e: &E, f: &F, g: &G, h: &H, i: &I)
    ensures { A.is_in_der a.now × B.is_in_der b.now × C.is_in_der c.now × D.is_in_der d.now ×
        E.is_in_der e.now × F.is_in_der f.now × G.is_in_der g.now × H.is_in_der h.now ×
        I.is_in_der i.now × Unit {0} }
{
    a.field_is_der();
    b.field_is_der();
    c.field_is_der();
    d.field_is_der();
    e.field_is_der();
    f.field_is_der();
    g.field_is_der();
    h.field_is_der();
    i.field_is_der();
}

/// States of the fields in hand that their values are in DER form.
pub fn in_der10<
    A: FieldIsDer,
    B: FieldIsDer,
    C: FieldIsDer,
    D: FieldIsDer,
    E: FieldIsDer,
    F: FieldIsDer,
    G: FieldIsDer,
    H: FieldIsDer,
    I: FieldIsDer,
    J: FieldIsDer,
>(a: &A, b: &B, c: &C, d: &D, e: &E, f: &F, g: &G, h: &H, i: &I, j: &J)
    ensures { A.is_in_der a.now × B.is_in_der b.now × C.is_in_der c.now × D.is_in_der d.now ×
        E.is_in_der e.now × F.is_in_der f.now × G.is_in_der g.now × H.is_in_der h.now ×
        I.is_in_der i.now × J.is_in_der j.now × Unit {0} }
{
    a.field_is_der();
    b.field_is_der();
    c.field_is_der();
    d.field_is_der();
    e.field_is_der();
    f.field_is_der();
    g.field_is_der();
    h.field_is_der();
    i.field_is_der();
    j.field_is_der();
}

/// States of the fields in hand that their values are in DER form.
pub fn in_der11<
    A: FieldIsDer,
    B: FieldIsDer,
    C: FieldIsDer,
    D: FieldIsDer,
    E: FieldIsDer,
    F: FieldIsDer,
    G: FieldIsDer,
    H: FieldIsDer,
    I: FieldIsDer,
    J: FieldIsDer,
    K: FieldIsDer,
>(a: &A, b: &B, c: &C, d: &D, e: &E, f: &F, g: &G, h: &H, i: &I, j: &J, k: &K)
    ensures { A.is_in_der a.now × B.is_in_der b.now × C.is_in_der c.now × D.is_in_der d.now ×
        E.is_in_der e.now × F.is_in_der f.now × G.is_in_der g.now × H.is_in_der h.now ×
        I.is_in_der i.now × J.is_in_der j.now × K.is_in_der k.now × Unit {0} }
{
    a.field_is_der();
    b.field_is_der();
    c.field_is_der();
    d.field_is_der();
    e.field_is_der();
    f.field_is_der();
    g.field_is_der();
    h.field_is_der();
    i.field_is_der();
    j.field_is_der();
    k.field_is_der();
}

/// States of the fields in hand that their values are in DER form.
pub fn in_der12<
    A: FieldIsDer,
    B: FieldIsDer,
    C: FieldIsDer,
    D: FieldIsDer,
    E: FieldIsDer,
    F: FieldIsDer,
    G: FieldIsDer,
    H: FieldIsDer,
    I: FieldIsDer,
    J: FieldIsDer,
    K: FieldIsDer,
    L: FieldIsDer,
>(a: &A, b: &B, c: &C, d: &D, e: &E, f: &F, g: &G, h: &H, i: &I, j: &J, k: &K, l: &L)
    ensures { A.is_in_der a.now × B.is_in_der b.now × C.is_in_der c.now × D.is_in_der d.now ×
        E.is_in_der e.now × F.is_in_der f.now × G.is_in_der g.now × H.is_in_der h.now ×
        I.is_in_der i.now × J.is_in_der j.now × K.is_in_der k.now × L.is_in_der l.now × Unit {0} }
{
    a.field_is_der();
    b.field_is_der();
    c.field_is_der();
    d.field_is_der();
    e.field_is_der();
    f.field_is_der();
    g.field_is_der();
    h.field_is_der();
    i.field_is_der();
    j.field_is_der();
    k.field_is_der();
    l.field_is_der();
}

/// States of the fields in hand that their values are in DER form.
pub fn in_der13<
    A: FieldIsDer,
    B: FieldIsDer,
    C: FieldIsDer,
    D: FieldIsDer,
    E: FieldIsDer,
    F: FieldIsDer,
    G: FieldIsDer,
    H: FieldIsDer,
    I: FieldIsDer,
    J: FieldIsDer,
    K: FieldIsDer,
    L: FieldIsDer,
    M: FieldIsDer,
>(a: &A, b: &B, c: &C, d: &D, e: &E, f: &F, g: &G, h: &H, i: &I, j: &J, k: &K, l: &L, m: &M)
    ensures { A.is_in_der a.now × B.is_in_der b.now × C.is_in_der c.now × D.is_in_der d.now ×
        E.is_in_der e.now × F.is_in_der f.now × G.is_in_der g.now × H.is_in_der h.now ×
        I.is_in_der i.now × J.is_in_der j.now × K.is_in_der k.now × L.is_in_der l.now ×
        M.is_in_der m.now × Unit {0} }
{
    a.field_is_der();
    b.field_is_der();
    c.field_is_der();
    d.field_is_der();
    e.field_is_der();
    f.field_is_der();
    g.field_is_der();
    h.field_is_der();
    i.field_is_der();
    j.field_is_der();
    k.field_is_der();
    l.field_is_der();
    m.field_is_der();
}

/// States of the fields in hand that their values are in DER form.
pub fn in_der14<
    A: FieldIsDer,
    B: FieldIsDer,
    C: FieldIsDer,
    D: FieldIsDer,
    E: FieldIsDer,
    F: FieldIsDer,
    G: FieldIsDer,
    H: FieldIsDer,
    I: FieldIsDer,
    J: FieldIsDer,
    K: FieldIsDer,
    L: FieldIsDer,
    M: FieldIsDer,
    N: FieldIsDer,
>(a: &A, b: &B, c: &C, d: &D, e: &E, f: &F, g: &G, h: &H, i: &I, j: &J, k: &K, l: &L, m: &M, n: &N)
    ensures { A.is_in_der a.now × B.is_in_der b.now × C.is_in_der c.now × D.is_in_der d.now ×
        E.is_in_der e.now × F.is_in_der f.now × G.is_in_der g.now × H.is_in_der h.now ×
        I.is_in_der i.now × J.is_in_der j.now × K.is_in_der k.now × L.is_in_der l.now ×
        M.is_in_der m.now × N.is_in_der n.now × Unit {0} }
{
    a.field_is_der();
    b.field_is_der();
    c.field_is_der();
    d.field_is_der();
    e.field_is_der();
    f.field_is_der();
    g.field_is_der();
    h.field_is_der();
    i.field_is_der();
    j.field_is_der();
    k.field_is_der();
    l.field_is_der();
    m.field_is_der();
    n.field_is_der();
}

/// States of the fields in hand that their values are in DER form.
pub fn in_der15<
    A: FieldIsDer,
    B: FieldIsDer,
    C: FieldIsDer,
    D: FieldIsDer,
    E: FieldIsDer,
    F: FieldIsDer,
    G: FieldIsDer,
    H: FieldIsDer,
    I: FieldIsDer,
    J: FieldIsDer,
    K: FieldIsDer,
    L: FieldIsDer,
    M: FieldIsDer,
    N: FieldIsDer,
    O: FieldIsDer,
>(
    a: &A,
    b: &B,
    c: &C,
    d: &D,
    e: &E,
    f: &F,
    g: &G,
    h: &H,
    i: &I,
    j: &J,
    k: &K,
    l: &L,
    m: &M,
    n: &N,
    o: &O,
)
    ensures { A.is_in_der a.now × B.is_in_der b.now × C.is_in_der c.now × D.is_in_der d.now ×
        E.is_in_der e.now × F.is_in_der f.now × G.is_in_der g.now × H.is_in_der h.now ×
        I.is_in_der i.now × J.is_in_der j.now × K.is_in_der k.now × L.is_in_der l.now ×
        M.is_in_der m.now × N.is_in_der n.now × O.is_in_der o.now × Unit {0} }
{
    a.field_is_der();
    b.field_is_der();
    c.field_is_der();
    d.field_is_der();
    e.field_is_der();
    f.field_is_der();
    g.field_is_der();
    h.field_is_der();
    i.field_is_der();
    j.field_is_der();
    k.field_is_der();
    l.field_is_der();
    m.field_is_der();
    n.field_is_der();
    o.field_is_der();
}

/// States of the fields in hand that their values are in DER form.
pub fn in_der16<
    A: FieldIsDer,
    B: FieldIsDer,
    C: FieldIsDer,
    D: FieldIsDer,
    E: FieldIsDer,
    F: FieldIsDer,
    G: FieldIsDer,
    H: FieldIsDer,
    I: FieldIsDer,
    J: FieldIsDer,
    K: FieldIsDer,
    L: FieldIsDer,
    M: FieldIsDer,
    N: FieldIsDer,
    O: FieldIsDer,
    P: FieldIsDer,
>(
    a: &A,
    b: &B,
    c: &C,
    d: &D,
    e: &E,
    f: &F,
    g: &G,
    h: &H,
    i: &I,
    j: &J,
    k: &K,
    l: &L,
    m: &M,
    n: &N,
    o: &O,
    p: &P,
)
    ensures { A.is_in_der a.now × B.is_in_der b.now × C.is_in_der c.now × D.is_in_der d.now ×
        E.is_in_der e.now × F.is_in_der f.now × G.is_in_der g.now × H.is_in_der h.now ×
        I.is_in_der i.now × J.is_in_der j.now × K.is_in_der k.now × L.is_in_der l.now ×
        M.is_in_der m.now × N.is_in_der n.now × O.is_in_der o.now × P.is_in_der p.now × Unit {0} }
{
    a.field_is_der();
    b.field_is_der();
    c.field_is_der();
    d.field_is_der();
    e.field_is_der();
    f.field_is_der();
    g.field_is_der();
    h.field_is_der();
    i.field_is_der();
    j.field_is_der();
    k.field_is_der();
    l.field_is_der();
    m.field_is_der();
    n.field_is_der();
    o.field_is_der();
    p.field_is_der();
}
// written by tools/leaves.py: to here
