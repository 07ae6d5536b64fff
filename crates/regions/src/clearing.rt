// Lists of which every place is cleared.
ghost use Rattle.std.specs.Prelude.{◌≡◌};
ghost use Rattle.laws.specs.Lent.{zeros};

// Puts 0 into every place of a list.
pub fn clear(list: &mut [u32])
    ensures { list.new ≡ zeros list.old }
{
    list.fill(0);
}
