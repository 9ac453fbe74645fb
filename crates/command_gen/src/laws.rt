// What holds of the module that the command writes, the clause of a function that does nothing.
ghost use Rattle.command_gen.specs.Gen.{PlainAreMade};

use accepted_counts::plain_modules_count;
use counted_accepted::gen_is_accepted;

/// The module that counts an accepted plain module is accepted as one that counts, and behaves as the original with its log for marks.
pub fn plain_modules_are_made()
    ensures { PlainAreMade }
{
    plain_modules_count();
    gen_is_accepted();
}
