// The quadratic extension of any field of at most 65,536 elements, itself a field; so it can be extended once more.
#![tactic(auto)]

ghost use Rattle.std.specs.Prelude.{ℕ, ◌≡◌, ◌*◌, ◌<◌, ◌≤◌, MatchOption};
ghost use Rattle.field.specs.Algebra.{ops};
ghost use Rattle.extension.specs.Extension.{norm, encode, decode, conjugate_product, extension, LeastRoot, Root, Extends};
ghost use Rattle.extension.proofs.Laws.{extension_lawful};

use field::Field;
use std::alloc::AllocError;

// a + bω with ω² = uω + v over the base; a base of q elements gives it the code a + q·b. That the base can be extended by u
// and v is part of the type.
pub struct Pair<F: Field> {
    base: F,
    u: u32,
    v: u32,
    ghost small: { (F.Field.model base).size ≤ 65536 },
    ghost u_below: { u < (F.Field.model base).size },
    ghost v_below: { v < (F.Field.model base).size },
    ghost no_root: { (x : ℕ) → x < (F.Field.model base).size → Root (F.Field.model base) u v x → ⊥ },
}

// By hand, since neither is derived over the ghost fields of a generic struct.
impl<F: Field + Clone> Clone for Pair<F> {
    // A pair over a clone of the base, with the same coefficients; and the same pair, where that clone is the base itself.
    ghost is_clone = { λ x y. F.is_clone x.base y.base × (y.u ≡ x.u) × (y.v ≡ x.v) × (y.base ≡ x.base → y ≡ x) };

    // Where the base's clone does not fail, and any clone of it is the same field.
    ghost is_infallible = { λ x. F.is_infallible x.base × ((b : F) → F.is_clone x.base b → F.Field.model b ≡ F.Field.model x.base) };

    // `Clone` has no law that a clone is the same field. Where the base can't tell at once, its clone is searched for a root, and where
    // it has no extension by u and v this fails.
    fn clone(&self) -> Result<Pair<F>, AllocError> {
        let base = self.base.clone()?;
        if self.base.is_same(&base) {
            return Ok(Pair::new(base, self.u, self.v));
        }
        extend(base, self.u, self.v).ok_or(AllocError)
    }
}

impl<F: Field + Copy> Copy for Pair<F> {}

impl<F: Field> Pair<F> {
    // The field that it extends.
    pub fn base(&self) -> &F
        ensures { result.now ≡ self.now.base }
    {
        &self.base
    }

    // The coefficients u and v.
    pub fn coefficients(&self) -> (u32, u32)
        ensures { result ≡ (self.now.u, self.now.v) }
    {
        (self.u, self.v)
    }
}

// The parts a and b of the code a + q·b.
fn split(x: u32, q: u64) -> (u32, u32)
    requires { (1 ≤ q) × ((q ≤ 65536) × (x < q * q)) }
    ensures value { result ≡ decode q x }
    ensures below { (result.0 < q) × (result.1 < q) }
{
    let q = q as u32;
    (x % q, x / q)
}

fn join(a: u32, b: u32, q: u64) -> u32
    requires { (q ≤ 65536) × ((a < q) × (b < q)) }
    ensures value { result ≡ encode q (a, b) }
    ensures below { result < q * q }
{
    a + q as u32 * b
}

// A root of X² − uX − v in the field, found by trying every element.
pub fn find_root<F: Field>(f: &F, u: u32, v: u32) -> Option<u32>
    requires small { (F.Field.model f.now).size ≤ 65536 }
    requires codes { (u < (F.Field.model f.now).size) × (v < (F.Field.model f.now).size) }
    ensures { LeastRoot (F.Field.model f.now) u v result }
{
    let q = f.size() as u32;
    for x in 0..q {
        if f.mul(x, x) == f.add(f.mul(u, x), v) {
            return Some(x);
        }
    }
    None
}

// The extension of the base by a root of X² − uX − v, where it has one: the base is small enough, u and v are elements of
// it, and there is no root in it already.
pub fn extend<F: Field + Drop>(base: F, u: u32, v: u32) -> Option<Pair<F>>
    ensures { MatchOption result (Extends (F.Field.model base) u v → ⊥) (λ p. Extends (F.Field.model base) u v × (p.base ≡ base) × (p.u ≡ u) × (p.v ≡ v)) }
{
    let q = base.size();
    if q > 65536 || u as u64 >= q || v as u64 >= q {
        return None;
    }
    if find_root(&base, u, v).is_some() {
        return None;
    }
    Some(Pair::new(base, u, v))
}

impl<F: Field> Pair<F> {
    // The extension of the base by a root of X² − uX − v, which has none in the base.
    pub fn new(base: F, u: u32, v: u32) -> Pair<F>
        requires { Extends (F.Field.model base) u v }
        ensures base { result.base ≡ base }
        ensures coefficients { (result.u ≡ u) × (result.v ≡ v) }
        ensures extends { Extends (F.Field.model result.base) result.u result.v }
    {
        Pair { base, u, v }
    }

    // a² + abu − b²v
    fn norm(&self, a: u32, b: u32) -> u32
        requires { (a < (F.Field.model self.now.base).size) × (b < (F.Field.model self.now.base).size) }
        ensures value { result ≡ norm (ops (F.Field.model self.now.base)) self.now.u self.now.v (a, b) }
        ensures below { result < (F.Field.model self.now.base).size }
    {
        let f = &self.base;
        let squares = f.add(f.mul(a, a), f.mul(f.mul(a, b), self.u));
        f.add(squares, f.neg(f.mul(f.mul(b, b), self.v)))
    }

    // The conjugate a + bu − bω times i.
    fn conjugate_times(&self, a: u32, b: u32, i: u32) -> u32
        requires { (a < (F.Field.model self.now.base).size) × ((b < (F.Field.model self.now.base).size) × (i < (F.Field.model self.now.base).size)) }
        ensures value { result ≡ conjugate_product (F.Field.model self.now.base) self.now.u (a, b) i }
        ensures below { result < (F.Field.model self.now.base).size * (F.Field.model self.now.base).size }
    {
        let f = &self.base;
        let low = f.mul(f.add(a, f.mul(b, self.u)), i);
        join(low, f.mul(f.neg(b), i), f.size())
    }
}

impl<F: Field> Field for Pair<F> {
    ghost use Rattle.quadratic.specs.Known.{extends};

    ghost model = { λ p. extension (F.Field.model p.base) p.u p.v };

    ghost laws = { λ p. extension_lawful (F.Field.model p.base) (F.Field.laws p.base) p.u p.v (extends p) };

    fn size(&self) -> u64 {
        let q = self.base.size();
        q * q
    }

    fn add(&self, x: u32, y: u32) -> u32 {
        let q = self.base.size();
        let (a, b) = split(x, q);
        let (c, d) = split(y, q);
        join(self.base.add(a, c), self.base.add(b, d), q)
    }

    // (ac + bdv) + (ad + bc + bdu)ω
    fn mul(&self, x: u32, y: u32) -> u32 {
        let f = &self.base;
        let q = f.size();
        let (a, b) = split(x, q);
        let (c, d) = split(y, q);
        let bd = f.mul(b, d);
        let low = f.add(f.mul(a, c), f.mul(bd, self.v));
        let high = f.add(f.add(f.mul(a, d), f.mul(b, c)), f.mul(bd, self.u));
        join(low, high, q)
    }

    fn neg(&self, x: u32) -> u32 {
        let q = self.base.size();
        let (a, b) = split(x, q);
        join(self.base.neg(a), self.base.neg(b), q)
    }

    // The conjugate times the inverse of the norm.
    fn inv(&self, x: u32) -> Option<u32> {
        let (a, b) = split(x, self.base.size());
        let i = self.base.inv(self.norm(a, b))?;
        Some(self.conjugate_times(a, b, i))
    }

    // The same extension of the same base.
    fn is_same(&self, other: &Pair<F>) -> bool {
        self.base.is_same(&other.base) && self.u == other.u && self.v == other.v
    }
}
