//! The method `retain`, which removes the values that do not meet a condition.
ghost use Rattle.std.specs.Prelude.{◌≡◌, map};
ghost use Rattle.std.specs.Fn.{CalledAtMut};
ghost use Rattle.syn_punctuated.specs.Retained.{AtEach, Retains, RetainsPairs, TakesAtMut};
ghost use Rattle.syn_punctuated.specs.Lists.{values_of};

use crate::punctuated::Punctuated;

/// Calls `f` on a value.
fn test<T, F: FnMut(&mut T) -> bool>(value: &mut T, f: &mut F) -> bool
    requires { TakesAtMut F.FnMut f.old value.old }
    ensures { CalledAtMut F.FnMut f.old value.old result f.new value.new }
{
    f(value)
}

/// Calls `f` on the value of a pair.
fn test_value<T, P, F: FnMut(&mut T) -> bool>(pair: &mut (T, P), f: &mut F) -> bool
    requires { TakesAtMut F.FnMut f.old pair.old.0 }
    ensures called { CalledAtMut F.FnMut f.old pair.old.0 result f.new pair.new.0 }
    ensures separator { pair.new.1 ≡ pair.old.1 }
{
    test(&mut pair.0, f)
}

/// Retains only the pairs for whose values `f` returns `true`.
fn retain_pairs<T: Drop, P: Drop, F: FnMut(&mut T) -> bool>(pairs: &mut Vec<(T, P)>, f: &mut F)
    requires { AtEach (CalledAtMut F.FnMut) (TakesAtMut F.FnMut) f.old
        (map (λ p. p.0) pairs.old.items) }
    ensures { RetainsPairs (CalledAtMut F.FnMut) f.old pairs.old.items pairs.new.items f.new }
{
    let mut kept = 0;
    for i in 0..pairs.len() {
        if test_value(&mut pairs[i], f) {
            pairs.swap(kept, i);
            kept += 1;
        }
    }
    pairs.truncate(kept);
}

impl<T: Drop, P: Drop> Punctuated<T, P> {
    /// Retains only the values for which `f` returns `true`, together with the separators after
    /// them.
    ///
    /// The call passes each value to `f` once, in order, and `f` may change the value. If the list
    /// ended in a value without a separator, it still ends in such a value unless it is empty. The
    /// call does not allocate memory.
    ///
    /// # Requires
    ///
    /// `f` must be callable on each value in order, after the calls on all earlier values.
    pub fn retain<F: FnMut(&mut T) -> bool>(&mut self, mut f: F)
        requires { AtEach (CalledAtMut F.FnMut) (TakesAtMut F.FnMut) f (values_of self.old) }
        ensures { Retains (CalledAtMut F.FnMut) f self.old self.new }
    {
        retain_pairs(&mut self.inner, &mut f);
        match &mut self.last {
            Some(last) => {
                if !test(last.as_mut(), &mut f) {
                    match self.inner.pop() {
                        Some((value, _)) => {
                            let _ = Box::replace(last, value);
                        }
                        None => self.last = None,
                    }
                }
            }
            None => {}
        }
    }
}
