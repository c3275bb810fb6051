//! Laws of the definitions. Each law is the contract of a function with an empty body.
ghost use Rattle.std.specs.Prelude.{◌≡◌, ◌<◌, ◌≤◌, ◌^◌, ◌&&◌, nat_lt, nat_le, ℕ, ℤ, Bool, List, None, Some, is_some, length, option_map, true, false};
ghost use Rattle.std.specs.List.{find, flat_map, list_all};
ghost use Rattle.std.specs.Str.{bytes_eq};
ghost use Rattle.json.specs.Json.{number, string};
ghost use Rattle.n2k_table.specs.declared.resolution.Resolution.{Resolution};
ghost use Rattle.n2k_table.specs.declared.string_place.Form.{Form};
ghost use Rattle.n2k_table.specs.declared.string_place.Form.TheVariants.{Lau};
ghost use Rattle.n2k_table.specs.Bits.{greatest};
ghost use Rattle.n2k_table.specs.Lookup.{name_of_value};
ghost use Rattle.n2k_table.specs.Shown.{shown_characters, shown_name, shown_number, shown_shifted, trimmed};
ghost use Rattle.n2k_table.specs.Shown as shows;
ghost use Rattle.n2k_table.specs.Strings.{units};
ghost use Rattle.n2k_encode.specs.Says.{has_pieces, says};
ghost use Rattle.n2k_encode.specs.Texts.{digit_pairs, ends_with_letter, hex_bytes, latin1};
ghost use Rattle.n2k_encode.specs.Value.{first_string, if_there, named_value, number_raw, shifted_raw};

/// If `has_pieces` finds the characters or pairs of digits of some numbers in a text, the text consists of exactly
/// these.
pub fn given_texts_are_shown()
    ensures { (piece : ℕ → List ℕ) (ns text : List ℕ) → has_pieces piece ns text ≡ true → text ≡ flat_map piece ns }
{}

/// A field accepts the values that it can show. If a raw value shows a number or a value of a lookup, the field is set to
/// this raw value; if two values have the same name, to the first that the field can hold. If bytes are shown as pairs of
/// digits or as characters, the text is read as these bytes. If a string shows a text, one of its encodings accepts the
/// text.
pub fn shown_values_are_accepted()
    ensures numbers { (signed : Bool) (n raw : ℕ) (res : Resolution) (text : List ℕ) → 1 ≤ n → 0 < res.mantissa → raw < 2 ^ n
        → says 0 (shown_number signed res n raw) (number text) ≡ true → number_raw false signed n res text ≡ Some raw }
    ensures shifted { (n raw : ℕ) (offset : ℤ) (res : Resolution) (text : List ℕ) → 0 < res.mantissa → raw < 2 ^ n
        → says 0 (shown_shifted offset res n raw) (number text) ≡ true → shifted_raw false n offset res text ≡ Some raw }
    ensures names { (entries : List (ℕ × List ℕ)) (n raw : ℕ) (name text : List ℕ) → raw < 2 ^ n
        → name_of_value entries raw ≡ Some name → says 0 (shown_name (Some name) n raw) (string text) ≡ true
        → is_some (if_there entries n (named_value entries (greatest false n) (string text))) ≡ true }
    ensures first_names { (entries : List (ℕ × List ℕ)) (n raw : ℕ) (name text : List ℕ) → raw < 2 ^ n
        → name_of_value entries raw ≡ Some name
        → option_map (λ e. e.0) (find (λ e. nat_le e.0 (greatest false n) && bytes_eq e.1 name) entries) ≡ Some raw
        → says 0 (shown_name (Some name) n raw) (string text) ≡ true
        → if_there entries n (named_value entries (greatest false n) (string text)) ≡ Some raw }
    ensures unnamed { (entries : List (ℕ × List ℕ)) (n raw : ℕ) (text : List ℕ) → n ≤ 64 → raw < 2 ^ n
        → name_of_value entries raw ≡ None → says 0 (shown_name None n raw) (number text) ≡ true
        → if_there entries n (named_value entries (greatest false n) (number text)) ≡ Some raw }
    ensures bytes { (bs text : List ℕ) → list_all (λ b. nat_lt b 256) bs ≡ true
        → says 0 (shows.bytes bs) (string text) ≡ true → hex_bytes text ≡ Some bs }
    ensures digits { (bs text : List ℕ) → list_all (λ b. nat_le b 99) bs ≡ true
        → says 0 (shows.digits bs) (string text) ≡ true → digit_pairs text ≡ Some bs }
    ensures texts { (bs text : List ℕ) → list_all (λ b. nat_lt b 256) bs ≡ true
        → says 0 (shows.text bs) (string text) ≡ true → latin1 text ≡ Some bs }
    ensures characters { (form : Form) (bs text : List ℕ) → length bs ≤ 253 → list_all (λ b. nat_lt b 256) bs ≡ true
        → says 0 (shown_characters (trimmed bs)) (string text) ≡ true → is_some (first_string form text) ≡ true }
    ensures wide { (bs text : List ℕ) → length bs ≤ 253 → list_all (λ b. nat_lt b 256) bs ≡ true → ends_with_letter (units bs) ≡ true
        → says 0 (shows.wide bs) (string text) ≡ true → is_some (first_string Lau text) ≡ true }
{}
