// What holds of objects of JSON, whatever the program does.
ghost use Rattle.std.specs.Prelude.{◌≡◌, ℕ, List, Some};
ghost use Rattle.serde_json.specs.Data.{Data};
ghost use Rattle.bt_text.specs.Text.{words};
ghost use Rattle.bt_words.specs.Forms.{Part};
ghost use Rattle.bt_export.specs.Forms.{Fits, IsForm};
ghost use Rattle.bt_export.specs.Object.{form_object, text_object};
ghost use Rattle.bt_export.specs.Said.{line_of_object};

/// The object of a line by its form says that line again, and so does the object of a text.
pub fn objects_say_their_lines()
    ensures form { (places : List Part) (names : List (List ℕ)) (line : List ℕ) (value : Data) → IsForm places names
        → Fits places (words line) → form_object places names line ≡ Some value → line_of_object value ≡ Some line }
    ensures text { (line : List ℕ) (value : Data) → text_object line ≡ Some value → line_of_object value ≡ Some line }
{}
