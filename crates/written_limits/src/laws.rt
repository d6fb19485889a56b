//! The limits of the whole product: a function with nothing to do, whose clauses are the numbers.
ghost use Rattle.std.specs.Prelude.{◌≡◌, Option};
ghost use Rattle.displays.specs.Publishing.{most_places};
ghost use Rattle.kept_sessions.specs.Sources.{most_file_bytes};
ghost use Rattle.movement.specs.Movement.{least_tables, most_tables, most_sets, most_per_set, most_boards};
ghost use Rattle.program.specs.Writes.{script_limit};
ghost use Rattle.query_filter.specs.Limits.{most_depth, most_atoms, most_members};
ghost use Rattle.rbac.specs.Account.{most_users};
ghost use Rattle.server_words.specs.CommandLine.{most_displays};
ghost use Rattle.session_book.specs.Run.{most_commands};
ghost use Rattle.session_object.specs.Reading.{most_bytes};
ghost use Rattle.session_state.specs.Refusal.{most_entries};
ghost use Rattle.solver_pool.specs.declared.pool.TheConstants.Pool.{MOST_JOBS};
ghost use Rattle.user_names.specs.declared.member_number.TheConstants.MemberNumber.{MOST as MOST_NUMBER};
ghost use Rattle.user_names.specs.declared.name.TheConstants.Name.{MOST};
ghost use Rattle.user_names.specs.declared.shown_name.TheConstants.ShownName.{MOST as MOST_SHOWN};
ghost use Rattle.notices.specs.declared.notice_text.TheConstants.NoticeText.{MOST as MOST_NOTICE};
ghost use Rattle.notices.specs.declared.notices.TheConstants.Notices.{MOST_TITLE, MOST_REASONS};
ghost use Rattle.websocket_server.specs.Messages.{longest_message};
ghost use Rattle.wire.specs.Request.{most_message_bytes};
ghost use Rattle.wire.specs.List.{most_listed};
ghost use Rattle.wire.specs.Audit.{from_1_to, most_rows};
ghost use Rattle.json_fields.specs.Field.{number};
ghost use Rattle.serde_json.specs.Data.{Data};

/// Each limit is the number that stands here. What is counted in bytes is a message without the end of its line, a session
/// object, a file of either text of a session, and a script with both.
pub fn limits_are_as_written()
    ensures least_tables { least_tables ≡ 3 }
    ensures tables { most_tables ≡ 16 }
    ensures sets { most_sets ≡ 31 }
    ensures boards_of_a_set { most_per_set ≡ 8 }
    ensures boards { most_boards ≡ 128 }
    ensures users { most_users ≡ 256 }
    ensures bytes_of_a_name { MOST ≡ 32 }
    ensures bytes_of_a_name_to_show { MOST_SHOWN ≡ 64 }
    ensures characters_of_a_members_number { MOST_NUMBER ≡ 16 }
    ensures bytes_of_a_title { MOST_TITLE ≡ 100 }
    ensures bytes_of_a_reason { MOST_NOTICE ≡ 200 }
    ensures reasons { MOST_REASONS ≡ 99 }
    ensures entries { most_entries ≡ 60000 }
    ensures commands_of_a_batch { most_commands ≡ 64 }
    ensures jobs { MOST_JOBS ≡ 70000 }
    ensures displays { most_places ≡ 32 }
    ensures displays_of_a_server { most_displays ≡ 32 }
    ensures depth_of_a_filter { most_depth ≡ 8 }
    ensures atoms_of_a_filter { most_atoms ≡ 32 }
    ensures members_of_a_filter { most_members ≡ 32 }
    ensures rows_of_an_audit { (found : Option Data) → most_rows.value found ≡ from_1_to 1000 (number found) }
    ensures boards_of_a_list { most_listed ≡ 64 }
    ensures bytes_of_a_message { most_message_bytes ≡ 65536 }
    ensures bytes_of_a_websocket_message { longest_message ≡ 65537 }
    ensures bytes_of_a_session_object { most_bytes ≡ 1048576 }
    ensures bytes_of_a_file { most_file_bytes ≡ 16777216 }
    ensures bytes_of_a_script { script_limit ≡ 1073741824 }
{}
