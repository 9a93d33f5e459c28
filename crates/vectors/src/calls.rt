// The calls of the table of vectors. Vectors and their elements are numbered from 1.
ghost use Rattle.std.specs.Prelude.{◌≡◌, ◌-◌, ◌<◌, ◌≤◌, [], ◌∷◌, ◌++◌, length, take, slice_index, slice_index_or, MatchOption, ⊤};
ghost use Rattle.vectors.specs.Tables.{vectors_of, width_of};

use crate::Vectors;
use table::Table;

impl Vectors {
    // No vector, of so many elements each.
    pub fn empty(width: usize) -> Vectors
        requires { width ≤ 12 }
        ensures holds { vectors_of result ≡ [] }
        ensures width { width_of result ≡ width }
    {
        Vectors {
            rows: Table::new(),
            width,
        }
    }

    // How many there are.
    pub fn count(&self) -> usize
        ensures is { result ≡ length (vectors_of self.now) }
        ensures few { result ≤ 64 }
    {
        self.rows.len()
    }

    // A vector by its number.
    pub fn vector(&self, number: u32) -> &[u32]
        requires low { 1 ≤ number }
        requires high { number ≤ length (vectors_of self.now) }
        ensures is { result.now ≡ slice_index_or (vectors_of self.now) (number - 1) [] }
        ensures wide { length result.now ≡ width_of self.now }
    {
        &self.rows.items()[number as usize - 1][..self.width]
    }

    // The last vector, if there is one.
    pub fn last(&self) -> Option<&[u32]>
        ensures is { MatchOption result (vectors_of self.now ≡ []) (λ v. (0 < length (vectors_of self.now)) × (v.now ≡ slice_index_or (vectors_of self.now) (length (vectors_of self.now) - 1) [])) }
        ensures wide { MatchOption result ⊤ (λ v. length v.now ≡ width_of self.now) }
    {
        self.rows.items().last().map(|row| &row[..self.width])
    }

    // The element of a vector at a place.
    pub fn element(&self, number: u32, place: u32) -> u32
        requires low { 1 ≤ number }
        requires high { number ≤ length (vectors_of self.now) }
        requires from { 1 ≤ place }
        requires to { place ≤ width_of self.now }
        ensures { result ≡ slice_index (slice_index_or (vectors_of self.now) (number - 1) []) (place - 1) }
    {
        self.vector(number)[place as usize - 1]
    }

    // One vector more: of the elements given, the first, as many as a vector has.
    pub fn push(&mut self, vector: &[u32])
        requires room { length (vectors_of self.old) < 64 }
        requires wide { width_of self.old ≤ length vector.now }
        ensures holds { vectors_of self.new ≡ vectors_of self.old ++ (take (width_of self.old) vector.now ∷ []) }
        ensures width { width_of self.new ≡ width_of self.old }
    {
        let mut row = [0; 12];
        row[..self.width].copy_from_slice(&vector[..self.width]);
        self.rows.push(row).unwrap();
    }
}
