//! Values of which there are mostly one or two.

ghost use Rattle.std.specs.Prelude.{◌≡◌, ◌==◌, ◌<◌, ◌≤◌, ◌∷◌, ◌++◌, [], length, IsOk, OnOk, OnErr};
ghost use Rattle.ox_block.specs.Few.{values_in, IsForm};
ghost use Rattle.ox_block.specs.declared.few.Form.TheVariants.{Two};

use ox_bytes::Memory;
use std::alloc::Global;
use std::marker::Model;
use std::mem;

/// So many values have room in memory that is taken for a third.
const ROOM: usize = 4;

/// Values in an order, of which one or two take no memory of their own. Contracts see the list of
/// them.
pub struct Few<T> {
    alloc: Global,
    pub(crate) form: Form<T>,
}

/// By hand, so that whoever drops a list makes one call, and proves nothing of its forms.
impl<T: Drop> Drop for Few<T> {
    fn drop(self) {
        let Few {
            alloc: _alloc,
            form: _form,
        } = self;
    }
}

/// What values are kept as.
#[derive(Drop)]
pub(crate) enum Form<T> {
    /// No value.
    Empty,
    /// One, in place.
    One([T; 1]),
    /// Two, in place.
    Two([T; 2]),
    /// More, in memory of their own.
    Many(Vec<T>),
}

impl<T> Model for Few<T> {
    ghost use Rattle.std.specs.Prelude.{List};
    ghost use Rattle.ox_block.specs.Few.{values_in, IsForm};

    ghost Value = { List T };

    ghost view = { λ f. values_in f.form };

    ghost invariant = { λ f. IsForm f.form };
}

impl<T> Few<T> {
    /// No values. They take no memory until a third is pushed.
    pub fn new(alloc: Global) -> Few<T>
        ensures { result ≡ [] }
    {
        Few {
            alloc,
            form: Form::Empty,
        }
    }

    /// One value.
    pub fn one(alloc: Global, value: T) -> Few<T>
        ensures { result ≡ value ∷ [] }
    {
        Few {
            alloc,
            form: Form::One([value]),
        }
    }

    /// Two values.
    pub fn two(alloc: Global, first: T, second: T) -> Few<T>
        ensures { result ≡ first ∷ second ∷ [] }
    {
        Few {
            alloc,
            form: Form::Two([first, second]),
        }
    }

    /// The values, in order.
    pub fn as_slice(&self) -> &[T]
        ensures { result.now ≡ self.now }
    {
        match &self.form {
            Form::Empty => &[],
            Form::One(value) => &value[..],
            Form::Two(values) => &values[..],
            Form::Many(values) => values.as_slice(),
        }
    }

    /// How many there are.
    pub fn len(&self) -> usize
        ensures { result ≡ length self.now }
    {
        match &self.form {
            Form::Empty => 0,
            Form::One(_) => 1,
            Form::Two(_) => 2,
            Form::Many(values) => values.len(),
        }
    }

    /// Whether there are none.
    pub fn is_empty(&self) -> bool
        ensures { result ≡ (length self.now == 0) }
    {
        matches!(&self.form, Form::Empty)
    }
}

impl<T: Drop> Few<T> {
    /// Appends a value. `Memory` where there is none for it, which may come from the third value
    /// on: nothing has changed then.
    pub fn push(&mut self, value: T) -> Result<(), Memory>
        ensures ok { OnOk result (self.new ≡ self.old ++ value ∷ []) }
        ensures err { OnErr result (self.new ≡ self.old) }
        ensures few { length self.old < 2 → IsOk result }
    {
        match &mut self.form {
            Form::Many(values) => values.push(value)?,
            form => push_to_few(self.alloc, form, value)?,
        }
        Ok(())
    }
}

/// Appends to two values at most.
fn push_to_few<T: Drop>(alloc: Global, form: &mut Form<T>, value: T) -> Result<(), Memory>
    requires few { length (values_in form.old) ≤ 2 }
    requires form { IsForm form.old }
    ensures ok { OnOk result (values_in form.new ≡ values_in form.old ++ value ∷ []) }
    ensures err { OnErr result (form.new ≡ form.old) }
    ensures form { IsForm form.new }
    ensures few { length (values_in form.old) < 2 → IsOk result }
{
    match mem::replace(form, Form::Empty) {
        Form::Empty => *form = Form::One([value]),
        Form::One(one) => {
            let [first] = one;
            *form = Form::Two([first, value]);
        }
        Form::Two(two) => return push_third(alloc, form, two, value),
        Form::Many(_values) => unreachable!(),
    }
    Ok(())
}

/// Moves two values and a third to memory of their own.
fn push_third<T: Drop>(
    alloc: Global,
    form: &mut Form<T>,
    two: [T; 2],
    value: T,
) -> Result<(), Memory>
    requires { length two ≡ 2 }
    ensures ok { OnOk result (values_in form.new ≡ two ++ value ∷ []) }
    ensures err { OnErr result (form.new ≡ Two two) }
    ensures form { IsForm form.new }
{
    let mut values = match Vec::with_capacity(alloc, ROOM) {
        Ok(values) => values,
        Err(_) => {
            *form = Form::Two(two);
            return Err(Memory);
        }
    };
    let [first, second] = two;
    values.push_reserved(first);
    values.push_reserved(second);
    values.push_reserved(value);
    *form = Form::Many(values);
    Ok(())
}
