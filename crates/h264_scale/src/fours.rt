ghost use Rattle.std.specs.Prelude.{◌≡◌, []};
ghost use Rattle.std.specs.Int.{int_shr};
ghost use Rattle.h264_scale.specs.Residual.{fits16 as fits16_of, fits_last as fits_last_of};
ghost use Rattle.h264_scale.specs.Fours.{IsShort, IsShortFour, IsShortBlock, IsWithin, AreWithin, four_fits, block_fits, four_fits_last};
ghost use Rattle.h264_scale.specs.Fours.{block_fits_last, plus, minus, half, transposed as transposed_of, halves as halves_of, joined as joined_of};
ghost use Rattle.h264_scale.specs.Fours.{summed as summed_of, block_e, block_f, hadamard_block, rows_of, row_then, corners};

/// Four numbers of a row.
#[derive(Clone, Copy)]
pub struct Four {
    pub a: i32,
    pub b: i32,
    pub c: i32,
    pub d: i32,
}

/// A matrix by its rows.
#[derive(Clone, Copy)]
pub struct Block {
    pub r0: Four,
    pub r1: Four,
    pub r2: Four,
    pub r3: Four,
}

/// Whether a number lies in the range of the transform: -2 ^ 15 to 2 ^ 15 - 1 (8.5.12.2).
#[tactic(auto, unfolding(crate::specs::Residual::fits16))]
#[inline(always)]
pub fn fits16(x: i32) -> bool
    ensures { result ≡ fits16_of x }
{
    -32768 <= x && x <= 32767
}

/// Whether a number lies in the range of the last values, to which 32 is added: -2 ^ 15 to 2 ^ 15 - 33 (8.5.12.2).
#[tactic(auto, unfolding(crate::specs::Residual::fits_last))]
#[inline(always)]
pub fn fits_last(x: i32) -> bool
    ensures { result ≡ fits_last_of x }
{
    -32768 <= x && x <= 32735
}

/// A number of 16 bits.
#[inline(always)]
pub fn as_16_bits(x: i32) -> i16
    requires { IsShort x }
    ensures { result ≡ x }
{
    x as i16
}

/// Half of a number, rounded down.
#[inline(always)]
fn half_of(x: i32) -> i32
    ensures { result ≡ int_shr x 1 }
{
    x >> 1
}

impl Four {
    #[tactic(auto, unfolding(crate::specs::Fours::four_fits))]
    #[inline(always)]
    pub fn fits(self) -> bool
        ensures { result ≡ four_fits self }
    {
        fits16(self.a) && fits16(self.b) && fits16(self.c) && fits16(self.d)
    }

    #[tactic(auto, unfolding(crate::specs::Fours::four_fits_last))]
    #[inline(always)]
    fn fits_last(self) -> bool
        ensures { result ≡ four_fits_last self }
    {
        fits_last(self.a) && fits_last(self.b) && fits_last(self.c) && fits_last(self.d)
    }

    #[inline(always)]
    fn plus(self, w: Four) -> Four
        requires left { IsWithin 1048576 self }
        requires right { IsWithin 1048576 w }
        ensures { result ≡ plus self w }
    {
        Four {
            a: self.a + w.a,
            b: self.b + w.b,
            c: self.c + w.c,
            d: self.d + w.d,
        }
    }

    #[inline(always)]
    fn minus(self, w: Four) -> Four
        requires left { IsWithin 1048576 self }
        requires right { IsWithin 1048576 w }
        ensures { result ≡ minus self w }
    {
        Four {
            a: self.a - w.a,
            b: self.b - w.b,
            c: self.c - w.c,
            d: self.d - w.d,
        }
    }

    #[inline(always)]
    fn half(self) -> Four
        ensures { result ≡ half self }
    {
        Four {
            a: half_of(self.a),
            b: half_of(self.b),
            c: half_of(self.c),
            d: half_of(self.d),
        }
    }
}

impl Four {
    /// The transform of the four DC coefficients of a chroma plane, row by row.
    #[inline(always)]
    pub fn corners(self) -> Four
        requires { IsShortFour self }
        ensures { result ≡ corners self }
    {
        let upper = self.a + self.b;
        let lower = self.c + self.d;
        let left = self.a - self.b;
        let right = self.c - self.d;
        Four {
            a: upper + lower,
            b: left + right,
            c: upper - lower,
            d: left - right,
        }
    }

    /// The four numbers.
    #[inline(always)]
    pub fn row(self) -> [i16; 4]
        requires { IsShortFour self }
        ensures { result ≡ row_then self [] }
    {
        [
            as_16_bits(self.a),
            as_16_bits(self.b),
            as_16_bits(self.c),
            as_16_bits(self.d),
        ]
    }
}

impl Block {
    /// Whether each entry lies in the range of the transform.
    #[tactic(auto, unfolding(crate::specs::Fours::block_fits))]
    #[inline(always)]
    pub fn fits(self) -> bool
        ensures { result ≡ block_fits self }
    {
        self.r0.fits() && self.r1.fits() && self.r2.fits() && self.r3.fits()
    }

    /// Whether each entry lies in the range of the last values.
    #[tactic(auto, unfolding(crate::specs::Fours::block_fits_last))]
    #[inline(always)]
    pub fn fits_last(self) -> bool
        ensures { result ≡ block_fits_last self }
    {
        self.r0.fits_last() && self.r1.fits_last() && self.r2.fits_last() && self.r3.fits_last()
    }

    /// The matrix with its rows as columns.
    #[inline(always)]
    pub fn transposed(self) -> Block
        ensures { result ≡ transposed_of self }
    {
        let Block { r0, r1, r2, r3 } = self;
        Block {
            r0: Four {
                a: r0.a,
                b: r1.a,
                c: r2.a,
                d: r3.a,
            },
            r1: Four {
                a: r0.b,
                b: r1.b,
                c: r2.b,
                d: r3.b,
            },
            r2: Four {
                a: r0.c,
                b: r1.c,
                c: r2.c,
                d: r3.c,
            },
            r3: Four {
                a: r0.d,
                b: r1.d,
                c: r2.d,
                d: r3.d,
            },
        }
    }

    /// The first step of the transform, of each column.
    #[inline(always)]
    pub fn halves(self) -> Block
        requires { IsShortBlock self }
        ensures { result ≡ halves_of self }
    {
        Block {
            r0: self.r0.plus(self.r2),
            r1: self.r0.minus(self.r2),
            r2: self.r1.half().minus(self.r3),
            r3: self.r1.plus(self.r3.half()),
        }
    }

    /// The second step of the transform, of each column.
    #[inline(always)]
    pub fn joined(self) -> Block
        requires { IsShortBlock self }
        ensures { result ≡ joined_of self }
    {
        Block {
            r0: self.r0.plus(self.r3),
            r1: self.r1.plus(self.r2),
            r2: self.r1.minus(self.r2),
            r3: self.r0.minus(self.r3),
        }
    }

    /// The transform of DC coefficients, of each column.
    #[inline(always)]
    pub fn summed(self) -> Block
        requires { AreWithin 262144 self }
        ensures { result ≡ summed_of self }
    {
        let upper = self.r0.plus(self.r1);
        let lower = self.r2.plus(self.r3);
        let first = self.r0.minus(self.r1);
        let last = self.r2.minus(self.r3);
        Block {
            r0: upper.plus(lower),
            r1: upper.minus(lower),
            r2: first.minus(last),
            r3: first.plus(last),
        }
    }

    /// The first step of the transform, of each row.
    #[tactic(auto, using(crate::proofs::Fits::transposed_in))]
    #[inline(always)]
    pub fn row_halves(self) -> Block
        requires { IsShortBlock self }
        ensures { result ≡ block_e self }
    {
        self.transposed().halves().transposed()
    }

    /// The second step of the transform, of each row.
    #[tactic(auto, using(crate::proofs::Fits::transposed_in))]
    #[inline(always)]
    pub fn row_joined(self) -> Block
        requires { IsShortBlock self }
        ensures { result ≡ block_f self }
    {
        self.transposed().joined().transposed()
    }

    /// Both steps of the transform of DC coefficients.
    #[inline(always)]
    pub fn hadamard(self) -> Block
        requires { IsShortBlock self }
        ensures { result ≡ hadamard_block self }
    {
        self.summed().transposed().summed().transposed()
    }

    /// The entries row by row.
    #[inline(always)]
    pub fn rows(self) -> [i16; 16]
        requires { IsShortBlock self }
        ensures { result ≡ rows_of self }
    {
        let Block { r0, r1, r2, r3 } = self;
        [
            as_16_bits(r0.a),
            as_16_bits(r0.b),
            as_16_bits(r0.c),
            as_16_bits(r0.d),
            as_16_bits(r1.a),
            as_16_bits(r1.b),
            as_16_bits(r1.c),
            as_16_bits(r1.d),
            as_16_bits(r2.a),
            as_16_bits(r2.b),
            as_16_bits(r2.c),
            as_16_bits(r2.d),
            as_16_bits(r3.a),
            as_16_bits(r3.b),
            as_16_bits(r3.c),
            as_16_bits(r3.d),
        ]
    }
}
