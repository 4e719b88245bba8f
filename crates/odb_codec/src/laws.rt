//! The laws about the definitions, each the contract of a function with nothing to do.
ghost use Rattle.std.specs.Prelude.{◌≡◌, ℕ, List, length, Ok};
ghost use Rattle.odb_values.specs.declared.value.Value.{Value};
ghost use Rattle.odb_model.specs.declared.entry.Entry.{Entry};
ghost use Rattle.odb_model.specs.Width.{entry_width};
ghost use Rattle.odb_codec.specs.Image.{HasImage, KeyHasImage, RowHasImage, entry_image, numbered, values_image};
ghost use Rattle.odb_codec.specs.Reading.{read_entry, read_key, read_row};

/// Reading gives back what an image is of. So no two entries of one number, no two keys and no two
/// rows have one image.
pub fn reads_images()
    ensures entry { (number : ℕ) (e : Entry) → HasImage e →
        read_entry number (entry_image e) ≡ Ok (numbered number e) }
    ensures key { (key : List Value) → KeyHasImage key → read_key (values_image key) ≡ Ok key }
    ensures row { (row : List Value) → RowHasImage row → read_row (values_image row) ≡ Ok row }
{}

/// How many bytes the image of an entry has: what its record takes where it is stored.
pub fn measures_images()
    ensures { (e : Entry) → length (entry_image e) ≡ entry_width e }
{}
