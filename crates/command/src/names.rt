// Tables of names, and what each stands for.
ghost use Rattle.std.specs.Prelude.{◌≡◌};
ghost use Rattle.command.specs.Tables.{first_of};

// What the first entry with this name stands for, if there is one.
pub(crate) fn look_up<T: Copy>(table: &[(&[u8], T)], text: &[u8]) -> Option<T>
    ensures { result ≡ first_of text.now table.now }
{
    table
        .iter()
        .find(|(name, _)| *name == text)
        .map(|(_, meant)| *meant)
}
