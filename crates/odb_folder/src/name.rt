//! The names of files.
ghost use Rattle.std.specs.Prelude.{◌≡◌};
ghost use Rattle.odb_folder.specs.Name.{name_of};

use arrayvec::ArrayString;
use itoa::Buffer;

/// The longest name, `4294967295.odb`.
const LONGEST: usize = 14;

/// The name of a file: its number in decimal, and `.odb`. It takes no memory.
pub(crate) fn file_name(file: u32) -> ArrayString<LONGEST>
    ensures { result.bytes ≡ name_of file }
{
    let mut name = ArrayString::new();
    name.push_str(Buffer::new().format(file));
    name.push_str(".odb");
    name
}
