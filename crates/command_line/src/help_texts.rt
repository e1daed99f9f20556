//! What help shows of the options that stand in tables.
ghost use Rattle.std.specs.Prelude.{◌≡◌, map, option_map};
ghost use Rattle.command_line.specs.Shown.{folder_texts, packing_texts, pool_texts};
ghost use Rattle.command_line.specs.declared.options.TheConstants.{NUMBERS};
ghost use Rattle.command_line.specs.declared.pack_options.TheConstants.{FOLDER, POOL};

/// What the tables hold: of each option its name and all that help shows of it.
pub fn tables_are_these()
    ensures numbers { map (λ o. record { name = o.0.now; value = o.1.now; help = o.2.now; default = option_map (λ t. t.now) o.3 }) NUMBERS ≡ packing_texts }
    ensures pool { map (λ o. record { name = o.0.now; value = o.1.now; help = o.2.now; default = option_map (λ t. t.now) o.3 }) POOL ≡ pool_texts }
    ensures folder { map (λ o. (o.0.now, o.1.now)) FOLDER ≡ folder_texts }
{}
