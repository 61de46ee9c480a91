// The files of a call.
ghost use Rattle.std.specs.Prelude.{◌≡◌, Ok, Err, MatchResult};
ghost use Rattle.stored.specs.File.{held};
ghost use Rattle.rows.specs.Files.{model_read, two_read};

use stored::file::File;
use stored::refusal::Refusal;

// Reads a file, the model of that number of a call.
pub fn read_model(model: u8, bytes: &[u8]) -> Result<File<'_>, Refusal>
    ensures { MatchResult result (λ file. model_read model bytes.now ≡ Ok (held file)) (λ refusal. model_read model bytes.now ≡ Err refusal) }
{
    File::read(bytes).map_err(|fault| Refusal::Malformed { model, fault })
}

// Reads two files, the models 1 and 2 of a call.
pub fn read_two<'a, 'b>(s: &'a [u8], t: &'b [u8]) -> Result<(File<'a>, File<'b>), Refusal>
    ensures { MatchResult result (λ two. two_read s.now t.now ≡ Ok (held two.0, held two.1)) (λ refusal. two_read s.now t.now ≡ Err refusal) }
{
    let first = read_model(1, s)?;
    let second = read_model(2, t)?;
    Ok((first, second))
}
