// Which items stay in their rows when another row is freed.
ghost use Rattle.std.specs.Prelude.{◌≡◌, Bool, map};
ghost use Rattle.tables.specs.Retained.{retained};

// Frees each row whose item does not stay.
pub(crate) fn retain<T: Copy, F: Fn(&T) -> bool>(rows: &mut [Option<T>], stays: F)
    requires { F.IsAlwaysCallable stays }
    ensures { (p : T → Bool) → ((x : _) (b : Bool) → F.post stays x b → b ≡ p x.now) → rows.new ≡ map (retained p) rows.old }
{
    for row in rows.iter_mut() {
        *row = row.filter(|item| stays(item));
    }
}
