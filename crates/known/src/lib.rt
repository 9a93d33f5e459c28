// A type of which some values are fields, and a value of it that is known to be one, as a field like any other.
#![tactic(auto)]

ghost use Rattle.std.specs.Prelude.{◌≡◌, ◌<◌, IfSome, ⊤};
ghost use Rattle.std.proofs.Math.Logic.{∥∥₁_elim};
ghost use Rattle.field.specs.Algebra.{Algebra, Lawful, inverse};
ghost use Rattle.known.specs.OneProof.{lawful_prop};

use field::Field;
use std::alloc::AllocError;
use std::marker::Model;

// A type of which some values are fields: what `Field` has, where the value is one.
pub trait FieldWhere {
    // Which values of the type are fields.
    ghost valid: { Self → Type 0 };

    // The size, and sum, product and negative of codes.
    ghost model: { Self → Algebra };

    // The number of elements.
    fn size(&self) -> u64
        requires { valid self.now }
        ensures { result ≡ (model self.now).size };

    fn add(&self, a: u32, b: u32) -> u32
        requires { (valid self.now) × ((a < (model self.now).size) × (b < (model self.now).size)) }
        ensures value { result ≡ (model self.now).sum a b }
        ensures below { result < (model self.now).size };

    fn mul(&self, a: u32, b: u32) -> u32
        requires { (valid self.now) × ((a < (model self.now).size) × (b < (model self.now).size)) }
        ensures value { result ≡ (model self.now).prod a b }
        ensures below { result < (model self.now).size };

    fn neg(&self, a: u32) -> u32
        requires { (valid self.now) × (a < (model self.now).size) }
        ensures value { result ≡ (model self.now).opp a }
        ensures below { result < (model self.now).size };

    // The element whose product with a is one; zero has none.
    fn inv(&self, a: u32) -> Option<u32>
        requires { (valid self.now) × (a < (model self.now).size) }
        ensures value { result ≡ inverse (model self.now) a }
        ensures below { IfSome result (λ b. b < (model self.now).size) };

    ghost laws: { (f : Self) → valid f → Lawful (model f) };
}

// A value that is valid. The invariant of a model takes a fact of any kind, however many proofs it has; contracts see the value.
#[derive(Drop)]
struct Valid<T: FieldWhere> {
    field: T,
}

impl<T: FieldWhere> Model for Valid<T> {
    ghost Value = { T };

    ghost view = { λ v. v.field };

    ghost invariant = { λ v. T.FieldWhere.valid v.field };

    ghost inverse = { λ f. record { field = f } };
}

impl<T: FieldWhere + Copy> Clone for Valid<T> {
    ghost is_clone = { λ x y. y ≡ x };

    ghost is_infallible = { λ _. ⊤ };

    fn clone(&self) -> Result<Valid<T>, AllocError> {
        Ok(*self)
    }
}

impl<T: FieldWhere + Copy> Copy for Valid<T> {}

impl<T: FieldWhere> Valid<T> {
    fn field(&self) -> &T
        ensures field { result.now ≡ self.now }
        ensures valid { T.FieldWhere.valid result.now }
    {
        &self.field
    }
}

// A value that is known to be a field. Its operations take the fact from `field`, where it is whole. The laws are told of the value
// alone, and so the fact stands beside it too, as one of which there is one proof at most.
#[derive(Drop)]
pub struct Known<T: FieldWhere> {
    field: Valid<T>,
    ghost is_field: { ∥ T.FieldWhere.valid field ∥₁ },
}

// By hand, since neither is derived over the ghost fields of a generic struct.
impl<T: FieldWhere + Copy> Clone for Known<T> {
    ghost is_clone = { λ x y. y ≡ x };

    ghost is_infallible = { λ _. ⊤ };

    fn clone(&self) -> Result<Known<T>, AllocError> {
        Ok(*self)
    }
}

impl<T: FieldWhere + Copy> Copy for Known<T> {}

impl<T: FieldWhere> Known<T> {
    pub fn new(field: T) -> Known<T>
        requires { T.FieldWhere.valid field }
        ensures { result.field ≡ field }
    {
        Known {
            field: Valid { field },
        }
    }

    // The value, which is a field.
    pub fn value(&self) -> &T
        ensures value { result.now ≡ self.now.field }
        ensures valid { T.FieldWhere.valid result.now }
    {
        self.field.field()
    }
}

impl<T: FieldWhere> Field for Known<T> {
    ghost model = { λ k. T.FieldWhere.model k.field };

    ghost laws = { λ k. ∥∥₁_elim k.is_field (lawful_prop (T.FieldWhere.model k.field)) (T.FieldWhere.laws k.field) };

    fn size(&self) -> u64 {
        self.value().size()
    }

    fn add(&self, a: u32, b: u32) -> u32 {
        self.value().add(a, b)
    }

    fn mul(&self, a: u32, b: u32) -> u32 {
        self.value().mul(a, b)
    }

    fn neg(&self, a: u32) -> u32 {
        self.value().neg(a)
    }

    fn inv(&self, a: u32) -> Option<u32> {
        self.value().inv(a)
    }
}
