// What is known of the numbers that are drawn. It holds of the definitions alone, so that nothing runs.
ghost use Rattle.std.specs.Prelude.{◌≡◌};
ghost use Rattle.bt_cut.specs.Generator.{drawn, next};

/// The first number that is drawn from 0 on.
pub fn first_draw_is_known()
    ensures first { drawn (next 0) ≡ 167951807 }
{}
