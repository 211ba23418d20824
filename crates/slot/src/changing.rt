//! A change of every element.
ghost use Rattle.std.specs.Prelude.{◌≡◌, map};

/// Changes every element alike: what the change computes of each, it is afterwards.
pub fn change_all<T, F: Fn(&mut T)>(all: &mut [T], change: F)
    requires { F.IsAlwaysCallable change }
    ensures { (f : T → T) → ((x y : _) → F.post change x tt y → y.now ≡ f x.now) → all.new ≡ map f all.old }
{
    for each in all.iter_mut() {
        change(each);
    }
}
