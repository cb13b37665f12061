// Which States take part in offsetting.
ghost use Rattle.std.specs.Prelude.{◌≡◌};
ghost use Rattle.units.specs.Marks.{takes_part};

// `marks` has one byte for each State from State 1 on, 1 when it takes part; States past them take no part.
pub fn takes_part(marks: &[u8], state: u16) -> bool
    ensures { result ≡ takes_part marks.now state }
{
    let number = state as usize;
    1 <= number && number <= marks.len() && marks[number - 1] == 1
}
