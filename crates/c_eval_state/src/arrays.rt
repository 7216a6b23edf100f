//! Arrays of numbers, one behind the other in one vector.

ghost use Rattle.std.specs.Prelude.{◌≡◌, ◌≤◌, ◌<◌, ◌+◌, ◌++◌, ◌∷◌, [], length, replicate, take, drop, pos};
ghost use Rattle.std.specs.Prelude.{slice_index_or, slice_set, MatchResult};
ghost use Rattle.c_eval_state.specs.Spans.{SetsElement, elements_of};
ghost use Rattle.c_tree.specs.Evaluation.{text_then_zeros, zeroed};

use pcc_base::NoMemory;
use std::alloc::Global;
use std::marker::Model;

/// Where the elements of an array stand among all.
#[derive(Clone, Copy)]
pub struct Span {
    pub start: usize,
    pub count: usize,
}

/// Arrays of numbers. A contract sees the list of them.
#[derive(Drop)]
pub struct Arrays {
    spans: Vec<Span>,
    elements: Vec<i32>,
}

impl Model for Arrays {
    ghost use Rattle.std.specs.Prelude.{List, ℤ, length, map};
    ghost use Rattle.c_eval_state.specs.Spans.{elements_of, AreSpans};

    ghost Value = { List (List ℤ) };

    ghost view = { λ a. map (elements_of a.elements.items) a.spans.items };

    ghost invariant = { λ a. AreSpans 0 a.spans.items (length a.elements.items) };
}

impl Arrays {
    /// No arrays.
    pub fn new(alloc: Global) -> Arrays
        ensures { result ≡ [] }
    {
        Arrays {
            spans: Vec::new(alloc),
            elements: Vec::new(alloc),
        }
    }

    /// How many arrays there are.
    pub fn len(&self) -> usize
        ensures { result ≡ length self.now }
    {
        self.spans.len()
    }

    /// The elements of an array; one that isn't there has none.
    pub fn elements(&self, array: usize) -> &[i32]
        ensures { result.now ≡ slice_index_or self.now array [] }
    {
        if array >= self.spans.len() {
            return &[];
        }
        piece(&self.elements, self.spans[array])
    }

    /// Gives an element another value. `false`, with nothing changed, where there is no such element.
    pub fn set(&mut self, array: usize, index: usize, value: i32) -> bool
        ensures { SetsElement self.old self.new array index value result }
    {
        if array >= self.spans.len() {
            return false;
        }
        let span = self.spans[array];
        if index >= span.count {
            return false;
        }
        set_piece(&mut self.elements, span, index, value);
        true
    }

    /// Makes an array begin with these elements, as far as it goes, and end in zeros.
    pub fn write(&mut self, array: usize, text: &[i32])
        ensures { self.new ≡ slice_set self.old array (text_then_zeros (slice_index_or self.old array []) text.now) }
    {
        if array < self.spans.len() {
            let span = self.spans[array];
            write_piece(&mut self.elements, span, text);
        }
    }

    /// Makes all elements of an array 0.
    pub fn clear(&mut self, array: usize)
        ensures { self.new ≡ slice_set self.old array (zeroed (slice_index_or self.old array [])) }
    {
        self.write(array, &[]);
    }

    /// Puts an array with these elements behind the others. Where there is no memory for it, nothing is changed.
    pub fn push(&mut self, elements: &[i32]) -> Result<(), NoMemory>
        ensures { MatchResult result
            (λ _. self.new ≡ self.old ++ elements.now ∷ [])
            (λ _. self.new ≡ self.old) }
    {
        let start = self.elements.len();
        self.spans.push(Span {
            start,
            count: elements.len(),
        })?;
        match self.elements.extend_from_slice(elements) {
            Ok(()) => Ok(()),
            Err(_) => {
                self.spans.pop();
                Err(NoMemory)
            }
        }
    }

    /// Puts an array of so many zeros behind the others. Where there is no memory for it, nothing is changed.
    pub fn push_zeros(&mut self, count: usize) -> Result<(), NoMemory>
        ensures { MatchResult result
            (λ _. self.new ≡ self.old ++ replicate count (pos 0) ∷ [])
            (λ _. self.new ≡ self.old) }
    {
        let start = self.elements.len();
        // This sum is never refused: all elements before stand in memory, and an array has fewer than 2^32.
        let end = start.checked_add(count).ok_or(NoMemory)?;
        self.spans.push(Span { start, count })?;
        match self.elements.resize(end, 0) {
            Ok(()) => Ok(()),
            Err(_) => {
                self.spans.pop();
                Err(NoMemory)
            }
        }
    }

    /// Leaves the first arrays, and no more.
    pub fn truncate(&mut self, count: usize)
        ensures { self.new ≡ take count self.old }
    {
        if count < self.spans.len() {
            self.elements.truncate(self.spans[count].start);
            self.spans.truncate(count);
        }
    }
}

/// The elements of the array that stands there.
fn piece(elements: &[i32], span: Span) -> &[i32]
    requires { span.start + span.count ≤ length elements.now }
    ensures { result.now ≡ elements_of elements.now span }
{
    &elements[span.start..span.start + span.count]
}

/// Gives an element of the array that stands there another value.
fn set_piece(elements: &mut [i32], span: Span, index: usize, value: i32)
    requires within { span.start + span.count ≤ length elements.old }
    requires index { index < span.count }
    ensures { elements.new ≡ slice_set elements.old (span.start + index) value }
{
    elements[span.start + index] = value;
}

/// An element of a text, or 0 behind its end.
fn text_element(text: &[i32], index: usize) -> i32
    ensures { result ≡ slice_index_or text.now index (pos 0) }
{
    match text.get(index) {
        Some(element) => *element,
        None => 0,
    }
}

/// Makes the array that stands there begin with these elements, as far as it goes, and end in zeros.
fn write_piece(elements: &mut [i32], span: Span, text: &[i32])
    requires { span.start + span.count ≤ length elements.old }
    ensures before { take span.start elements.new ≡ take span.start elements.old }
    ensures here { elements_of elements.new span ≡ text_then_zeros (elements_of elements.old span) text.now }
    ensures behind { drop (span.start + span.count) elements.new ≡ drop (span.start + span.count) elements.old }
    ensures len { length elements.new ≡ length elements.old }
{
    for i in 0..span.count {
        elements[span.start + i] = text_element(text, i);
    }
}
