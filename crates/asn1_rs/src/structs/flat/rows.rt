//! Rows of one to sixteen fields, as types without nested pairs.

// written by tools/leaves.py: from here
/// A row of one field.
pub type Row1<A> = (A, ());

/// A row of 2 fields.
pub type Row2<A, B> = (A, (B, ()));

/// A row of 3 fields.
pub type Row3<A, B, C> = (A, (B, (C, ())));

/// A row of 4 fields.
pub type Row4<A, B, C, D> = (A, (B, (C, (D, ()))));

/// A row of 5 fields.
pub type Row5<A, B, C, D, E> = (A, (B, (C, (D, (E, ())))));

/// A row of 6 fields.
pub type Row6<A, B, C, D, E, F> = (A, (B, (C, (D, (E, (F, ()))))));

/// A row of 7 fields.
pub type Row7<A, B, C, D, E, F, G> = (A, (B, (C, (D, (E, (F, (G, ())))))));

/// A row of 8 fields.
pub type Row8<A, B, C, D, E, F, G, H> = (A, (B, (C, (D, (E, (F, (G, (H, ()))))))));

/// A row of 9 fields.
pub type Row9<A, B, C, D, E, F, G, H, I> = (A, (B, (C, (D, (E, (F, (G, (H, (I, ())))))))));

/// A row of 10 fields.
pub type Row10<A, B, C, D, E, F, G, H, I, J> = (A, (B, (C, (D, (E, (F, (G, (H, (I, (J, ()))))))))));

/// A row of 11 fields.
pub type Row11<A, B, C, D, E, F, G, H, I, J, K> = (
    A,
    (B, (C, (D, (E, (F, (G, (H, (I, (J, (K, ())))))))))),
);

/// A row of 12 fields.
pub type Row12<A, B, C, D, E, F, G, H, I, J, K, L> = (
    A,
    (B, (C, (D, (E, (F, (G, (H, (I, (J, (K, (L, ()))))))))))),
);

/// A row of 13 fields.
pub type Row13<A, B, C, D, E, F, G, H, I, J, K, L, M> = (
    A,
    (B, (C, (D, (E, (F, (G, (H, (I, (J, (K, (L, (M, ())))))))))))),
);

/// A row of 14 fields.
pub type Row14<A, B, C, D, E, F, G, H, I, J, K, L, M, N> = (
    A,
    (
        B,
        (C, (D, (E, (F, (G, (H, (I, (J, (K, (L, (M, (N, ())))))))))))),
    ),
);

/// A row of 15 fields.
pub type Row15<A, B, C, D, E, F, G, H, I, J, K, L, M, N, O> = (
    A,
    (
        B,
        (
            C,
            (D, (E, (F, (G, (H, (I, (J, (K, (L, (M, (N, (O, ())))))))))))),
        ),
    ),
);

/// A row of 16 fields.
pub type Row16<A, B, C, D, E, F, G, H, I, J, K, L, M, N, O, P> = (
    A,
    (
        B,
        (
            C,
            (
                D,
                (E, (F, (G, (H, (I, (J, (K, (L, (M, (N, (O, (P, ())))))))))))),
            ),
        ),
    ),
);
// written by tools/leaves.py: to here
